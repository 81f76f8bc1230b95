// House wires by rows over places (document 02, request 5). A place is the number of a use of an edge.
//
// From the sorted uses of all edges come the rows by which a hem turns through the cloth (crate crossing). The places of hem edges are kept
// as they stand in that order and sorted by start: so the hem edges ascend, smallest start, then smallest end. In that order crate trailing
// begins a wire at each one that is not used yet, and goes from each to the one that follows it.
#![tactic(auto)]

ghost use Rattle.mesh.specs.Mesh.{rings};
ghost use Rattle.tracing.specs.Hems.{Written};
ghost use Rattle.turning.specs.Turning.{house_wires_of};
ghost use Rattle.std.specs.Prelude.{[], ◌∷◌};
ghost use Rattle.hemming.specs.Rows.{hem_places, wires_from, wires_in};
ghost use Rattle.hemming.specs.Rows.{Hemmable, Turnable, TurnedBy, KeepRoom, KeepAt, Kept, Beginning, Traceable};

use tracing::Traced;

// The house wires of sorted uses whose verdict allows them. Rows that have served take what comes next.
pub fn trace(
    corners: &[u32],
    sizes: &[u32],
    positions: usize,
    lowers: &mut [u32],
    highers: &mut [u32],
    downs: &mut [u32],
    first: &mut [u32],
    order: &[u32],
    twins: &mut [u32],
    flat: &mut [u32],
    lengths: &mut [u32],
) -> Traced
    requires { Hemmable
        corners.now sizes.now positions lowers.old highers.old downs.old first.old order.now twins.old flat.old lengths.old }
    ensures { Written (house_wires_of (rings sizes.now corners.now))
        flat.old lengths.old flat.new lengths.new
        result.flat result.wires }
{
    turn(sizes, lowers, highers, downs, order, first, twins);
    trace_hems(
        corners, positions, order, lowers, highers, first, downs, twins, flat, lengths,
    )
}

// How a hem turns: each place's next in its face, its twin, and what follows it, which goes to the row `downs`.
fn turn(
    sizes: &[u32],
    lowers: &[u32],
    highers: &[u32],
    downs: &mut [u32],
    order: &[u32],
    after: &mut [u32],
    twins: &mut [u32],
)
    requires { Turnable sizes.now lowers.now highers.now downs.old order.now after.old twins.old }
    ensures { TurnedBy
        sizes.now lowers.now highers.now order.now twins.old downs.new
        after.new twins.new }
{
    crossing::put_after(sizes, after);
    crossing::put_twins(lowers, highers, downs, order, twins);
    crossing::put_follows(after, twins, downs);
}

// The wires. Only the places of hem edges begin one, so only these are sorted; the row of twins says which they are.
fn trace_hems(
    corners: &[u32],
    positions: usize,
    order: &[u32],
    starts: &mut [u32],
    sorted: &mut [u32],
    kept: &mut [u32],
    follows: &[u32],
    left: &mut [u32],
    flat: &mut [u32],
    lengths: &mut [u32],
) -> Traced
    requires { Traceable
        corners.now positions order.now starts.old sorted.old kept.old follows.now left.old flat.old lengths.old }
    ensures { Written
        (wires_in corners.now positions order.now starts.old follows.now left.old)
        flat.old lengths.old flat.new lengths.new
        result.flat result.wires }
{
    let m = keep_hems(corners, left, order, starts, kept);
    trace_from(
        starts,
        positions,
        &kept[..m],
        &mut sorted[..m],
        follows,
        left,
        flat,
        lengths,
    )
}

// The places of hem edges go to the front of `kept`, as they stand in the order, and where their edges start to the row `starts`. The
// answer is how many there are.
fn keep_hems(
    corners: &[u32],
    twins: &[u32],
    order: &[u32],
    starts: &mut [u32],
    kept: &mut [u32],
) -> usize
    requires { KeepRoom corners.now twins.now order.now starts.old kept.old }
    ensures { Kept corners.now (hem_places twins.now order.now)
        starts.old kept.old 0 starts.new kept.new result }
{
    let mut m: usize = 0;
    for place in order {
        m = keep_hem(corners, twins, *place, starts, kept, m);
    }
    m
}

// One place behind m others, if it is that of a hem edge.
fn keep_hem(
    corners: &[u32],
    twins: &[u32],
    place: u32,
    starts: &mut [u32],
    kept: &mut [u32],
    m: usize,
) -> usize
    requires { KeepAt corners.now twins.now place starts.old kept.old m }
    ensures { Kept corners.now (hem_places twins.now (place ∷ []))
        starts.old kept.old m starts.new kept.new result }
{
    let u = place as usize;
    if twins[u] != place {
        return m;
    }
    starts[u] = corners[mesh::WIDTH * u];
    kept[m] = place;
    m + 1
}

// The wires from places that are kept. They stand by lower and higher position; so those with one start ascend by their ends, and sorted
// by start they ascend by start and end.
fn trace_from(
    starts: &[u32],
    positions: usize,
    kept: &[u32],
    sorted: &mut [u32],
    follows: &[u32],
    left: &mut [u32],
    flat: &mut [u32],
    lengths: &mut [u32],
) -> Traced
    requires { Beginning positions starts.now kept.now sorted.old follows.now left.old flat.old lengths.old }
    ensures { Written (wires_from positions starts.now kept.now follows.now left.old)
        flat.old lengths.old flat.new lengths.new
        result.flat result.wires }
{
    sorting::sort_by(starts, positions, kept, sorted);
    trailing::trace_all(starts, follows, left, sorted, flat, lengths)
}
