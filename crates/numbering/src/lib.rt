// The edges of triangles, numbered by first use in the Rust's order; and for each edge its two positions, its first and its last wing,
// and how many wings it has. Crate sides has the uses of the edges as columns and marks the first use of each; so one pass over the
// uses is enough, and nothing is searched for.
#![tactic(auto)]

ghost use Rattle.std.specs.Prelude.{◌≡◌};
ghost use Rattle.smoothed.specs.Columns.{triangles};
ghost use Rattle.numbering.specs.Numbering.{rows, Numberable, Numbered};
ghost use Rattle.numbering.specs.Steps.{use_at, uses_in, Laid, Marks, Takeable, Taken};

// Every row has one number for each corner. `numbers` gets for each use the number of its edge; the others get for each edge its lower
// and its higher position, its first and its last wing, and how many wings it has. Returns how many edges there are.
pub fn number_edges(
    corners: &[u32],
    numbers: &mut [u32],
    lowers: &mut [u32],
    highers: &mut [u32],
    firsts: &mut [u32],
    seconds: &mut [u32],
    wings: &mut [u32],
) -> usize
    requires { Numberable corners.now (rows numbers.old lowers.old highers.old firsts.old seconds.old wings.old) }
    ensures { Numbered (triangles corners.now)
        (rows numbers.old lowers.old highers.old firsts.old seconds.old wings.old)
        (rows numbers.new lowers.new highers.new firsts.new seconds.new wings.new) result }
{
    let mut lower_row = [0u32; mesh::CORNERS];
    let mut higher_row = [0u32; mesh::CORNERS];
    let mut wing_row = [0u32; mesh::CORNERS];
    let u = corners.len() / mesh::WIDTH;
    let lower = &mut lower_row[..u];
    let higher = &mut higher_row[..u];
    let wing = &mut wing_row[..u];
    sides::put_sides(corners, lower, higher, wing);
    sides::mark_firsts(lower, higher, numbers);
    number_uses(
        lower, higher, wing, numbers, lowers, highers, firsts, seconds, wings,
    )
}

// One pass over the uses, of each of which `numbers` has the first use of its edge.
// The rows stay one by one: they are a caller's lists, and a struct of lists that are lent to be written is no plainer at two calls.
fn number_uses(
    lower: &[u32],
    higher: &[u32],
    wing: &[u32],
    numbers: &mut [u32],
    lowers: &mut [u32],
    highers: &mut [u32],
    firsts: &mut [u32],
    seconds: &mut [u32],
    wings: &mut [u32],
) -> usize
    requires { Marks lower.now higher.now wing.now
        (rows numbers.old lowers.old highers.old firsts.old seconds.old wings.old) }
    ensures { Laid (uses_in lower.now higher.now wing.now)
        (rows numbers.old lowers.old highers.old firsts.old seconds.old wings.old)
        (rows numbers.new lowers.new highers.new firsts.new seconds.new wings.new) result }
{
    let mut count = 0;
    for x in 0..lower.len() {
        count = take_use(
            x, count, lower, higher, wing, numbers, lowers, highers, firsts, seconds, wings,
        );
    }
    count
}

// Use `x`, where there are `count` edges so far: the first use of an edge begins it; a later one brings a wing more. Returns how many
// edges there are then.
fn take_use(
    x: usize,
    count: usize,
    lower: &[u32],
    higher: &[u32],
    wing: &[u32],
    numbers: &mut [u32],
    lowers: &mut [u32],
    highers: &mut [u32],
    firsts: &mut [u32],
    seconds: &mut [u32],
    wings: &mut [u32],
) -> usize
    requires { Takeable x count lower.now higher.now wing.now
        (rows numbers.old lowers.old highers.old firsts.old seconds.old wings.old) }
    ensures { Taken x count (use_at lower.now higher.now wing.now x)
        (rows numbers.old lowers.old highers.old firsts.old seconds.old wings.old)
        (rows numbers.new lowers.new highers.new firsts.new seconds.new wings.new) result }
{
    let first = numbers[x] as usize;
    if first == x {
        lowers[count] = lower[x];
        highers[count] = higher[x];
        firsts[count] = wing[x];
        seconds[count] = wing[x];
        wings[count] = 1;
        numbers[x] = count as u32;
        return count + 1;
    }
    let number = numbers[first];
    let edge = number as usize;
    seconds[edge] = wing[x];
    wings[edge] += 1;
    numbers[x] = number;
    count
}
