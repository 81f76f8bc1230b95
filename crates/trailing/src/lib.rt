// Wires by rows over places (document 02, request 5). A place is the number of a use of an edge.
//
// One row has for each place the position at which its edge starts, one the place that follows it. A third has a place's own number where
// its edge is a hem edge that is not used yet, and is written over as the wires use them. A wire goes from place to place until it comes
// to an edge that is used: what follows is one-to-one, so that this is the edge it began with. Crate house has that law, and the rows.
#![tactic(auto)]

ghost use Rattle.std.specs.Prelude.{◌≡◌, ◌<◌, length};
ghost use Rattle.tracing.specs.Hems.{Written};
ghost use Rattle.trailing.specs.Trailing.{is_left, wire_from, new_wire, wires_by, Walkable, Walked, Addable, Added, AllLeft};

use tracing::Traced;

// A wire from each place of the order whose edge is left then, from the front of `flat` and `lengths` on.
pub fn trace_all(
    starts: &[u32],
    follows: &[u32],
    left: &mut [u32],
    order: &[u32],
    flat: &mut [u32],
    lengths: &mut [u32],
) -> Traced
    requires { AllLeft starts.now follows.now left.old order.now flat.old lengths.old }
    ensures { Written (wires_by starts.now follows.now order.now left.old)
        flat.old lengths.old flat.new lengths.new
        result.flat result.wires }
{
    let mut done = Traced { flat: 0, wires: 0 };
    for u in order {
        done = trace_one(starts, follows, left, *u as usize, flat, lengths, done);
    }
    done
}

// One wire more, from place u, and its length; none where the edge there is used already.
fn trace_one(
    starts: &[u32],
    follows: &[u32],
    left: &mut [u32],
    u: usize,
    flat: &mut [u32],
    lengths: &mut [u32],
    done: Traced,
) -> Traced
    requires { Addable starts.now follows.now left.old u flat.old lengths.old done.flat done.wires }
    ensures { Added (new_wire starts.now follows.now u left.old)
        (wire_from starts.now follows.now u left.old).1
        flat.old lengths.old done.flat done.wires
        left.new flat.new lengths.new result.flat result.wires }
{
    if !is_left(left, u) {
        return done;
    }
    let at = done.flat;
    let k = done.wires;
    let end = trace_wire(starts, follows, left, u, flat, at);
    lengths[k] = (end - at) as u32;
    Traced {
        flat: end,
        wires: k + 1,
    }
}

// The wire from place `first`, from place `at` of `flat` on; the answer is the place behind it.
fn trace_wire(
    starts: &[u32],
    follows: &[u32],
    left: &mut [u32],
    first: usize,
    flat: &mut [u32],
    at: usize,
) -> usize
    requires { Walkable starts.now follows.now left.old first flat.old at }
    ensures { Walked (wire_from starts.now follows.now first left.old)
        flat.old at left.new flat.new result }
{
    let mut m = at;
    let mut u = first;
    while is_left(left, u) {
        flat[m] = starts[u];
        left[u] = tracing::NOBODY;
        m += 1;
        u = follows[u] as usize;
    }
    m
}

// Whether the edge at place u is not used yet.
fn is_left(left: &[u32], u: usize) -> bool
    requires { u < length left.now }
    ensures { result ≡ is_left left.now u }
{
    left[u] as usize == u
}
