// The panels that joins between faces make, listed as the Rust's `components` lists them.
//
// A stable sort puts the entries of the joins by face, in the order they were recorded; a search with a stack lists the panels
// (search.rt). All of it is linear: no face is looked for.
#![tactic(auto)]

ghost use Rattle.std.specs.Prelude.{◌≡◌, length};
ghost use Rattle.connected.specs.Walk.{panels_below, Parted};
ghost use Rattle.connected.specs.Rows.{Divisible, PartRows};

mod search;

// The most numbers that joins have: at most one join for each corner, and two faces each.
pub const JOIN_NUMBERS: usize = 2 * mesh::CORNERS;

// How many faces are listed, in how many panels.
#[derive(Clone, Copy)]
pub struct Counts {
    pub faces: usize,
    pub panels: usize,
}

// The panels of `faces` faces that the joins connect.
pub fn part(joins: &[u32], faces: usize, flat: &mut [u32], lengths: &mut [u32]) -> Counts
    requires { Divisible joins.now faces flat.old lengths.old }
    ensures { Parted
        (panels_below faces faces joins.now) flat.old lengths.old flat.new lengths.new result.faces
        result.panels }
{
    let mut entries = [0u32; JOIN_NUMBERS];
    let mut order = [0u32; JOIN_NUMBERS];
    let mut ends = [0u32; mesh::FACES];
    let mut seen = [0u32; mesh::FACES];
    let mut stack = [0u32; mesh::FACES];
    let n = joins.len();
    part_in(
        joins,
        &mut entries[..n],
        &mut order[..n],
        &mut ends[..faces],
        &mut seen[..faces],
        &mut stack[..faces],
        flat,
        lengths,
    )
}

// The same, in rows of one number for each entry of the joins and of one for each face.
fn part_in(
    joins: &[u32],
    entries: &mut [u32],
    order: &mut [u32],
    ends: &mut [u32],
    seen: &mut [u32],
    stack: &mut [u32],
    flat: &mut [u32],
    lengths: &mut [u32],
) -> Counts
    requires { PartRows joins.now entries.old order.old ends.old seen.old stack.old flat.old lengths.old }
    ensures { Parted
        (panels_below (length ends.old) (length ends.old) joins.now) flat.old lengths.old
        flat.new lengths.new result.faces result.panels }
{
    sorting::count_up(entries);
    sorting::sort_ends(joins, entries, ends, order);
    search::list_panels(joins, order, ends, seen, stack, flat, lengths)
}
