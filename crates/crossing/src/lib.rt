// How a hem turns through the cloth, over places (document 02, request 5). A place is the number of a use of an edge: the uses of all
// edges are numbered in the order of the faces, corner by corner.
//
// One row has for each place the next use in its face. One has the place with the same edge, from one scan over the sorted uses, or the
// place itself where no other has it: then it is the place of a hem edge. From these two comes the third row: for each hem edge the one
// that follows it.
//
// Where the verdict is Oriented or Closed, taking the next use is one-to-one, and so is crossing. So each use is passed for one hem edge at
// most, and the third row takes no more steps than there are uses. With another verdict it is a row too, but means nothing.
//
// Crate turning has the rule, and the law by which rows come to it; proofs/Turned.antt has it for these rows.
#![tactic(auto)]

ghost use Rattle.std.specs.Prelude.{◌≡◌, ◌+◌, ◌≤◌, length, get_or};
ghost use Rattle.mesh.specs.Limits.{corner_limit};
ghost use Rattle.turning.specs.Rows.{place_from};
ghost use Rattle.crossing.specs.Crossing.{ring_row, after_row, twin_by, twinned, follow_of, follow_row};
ghost use Rattle.crossing.specs.Crossing.{AfterRoom, TwinRoom, Between, CrossableAt, FollowRoom, Found};

// For each place the place of the next use in its face: of the last one the first.
pub fn put_after(sizes: &[u32], after: &mut [u32])
    requires { AfterRoom sizes.now after.old }
    ensures { after.new ≡ after_row sizes.now }
{
    let mut at: usize = 0;
    for size in sizes {
        let n = *size as usize;
        put_ring(&mut after[at..at + n], at);
        at += n;
    }
}

// The same for the places of one face, of which the first is `at`.
fn put_ring(ring: &mut [u32], at: usize)
    requires { at + length ring.old ≤ corner_limit }
    ensures { ring.new ≡ ring_row at (length ring.old) }
{
    let n = ring.len();
    for (i, next) in ring.iter_mut().enumerate() {
        *next = (at + lists::next_of(i, n)) as u32;
    }
}

// For each place the place that has the same edge; itself where no other has it. The uses of one edge stand together in the order, and
// each use is held to the one behind it, once.
pub fn put_twins(lowers: &[u32], highers: &[u32], downs: &[u32], order: &[u32], twins: &mut [u32])
    requires { TwinRoom lowers.now highers.now downs.now order.now twins.old }
    ensures { twins.new ≡ twinned
        lowers.now highers.now order.now (length order.now) twins.old }
{
    let mut back = false;
    for (i, u) in order.iter().enumerate() {
        let on = uses::goes_on(lowers, highers, downs, order, i);
        twins[*u as usize] = twin_at(order, i, back, on);
        back = on;
    }
}

// The twin of the use at place i of the order, where it is known whether the one before it and the one behind it are of the same edge.
fn twin_at(order: &[u32], i: usize, back: bool, on: bool) -> u32
    requires { Between order.now i back on }
    ensures { result ≡ twin_by order.now i back on }
{
    if back {
        order[i - 1]
    } else if on {
        order[i + 1]
    } else {
        order[i]
    }
}

// For each place of a hem edge the place of the hem edge that follows it through the cloth; any other place is its own.
pub fn put_follows(after: &[u32], twins: &[u32], follows: &mut [u32])
    requires { FollowRoom after.now twins.now follows.old }
    ensures { follows.new ≡ follow_row after.now twins.now }
{
    for (u, follow) in follows.iter_mut().enumerate() {
        *follow = follow_of(after, twins, u) as u32;
    }
}

// The place that follows u.
fn follow_of(after: &[u32], twins: &[u32], u: usize) -> usize
    requires { CrossableAt after.now twins.now u }
    ensures { Found (length twins.now) result (follow_of after.now twins.now u) }
{
    if twins[u] as usize == u {
        turn_from(after, twins, after[u] as usize)
    } else {
        u
    }
}

// From a place on: while it is not the place of a hem edge, cross to the place that has its edge the other way and take the next use
// there. So many steps are enough as there are places.
fn turn_from(after: &[u32], twins: &[u32], u: usize) -> usize
    requires { CrossableAt after.now twins.now u }
    ensures { Found
        (length twins.now) result (place_from after.now twins.now (length twins.now) u) }
{
    let mut place = u;
    for _ in 0..twins.len() {
        if twins[place] as usize == place {
            return place;
        }
        place = across(after, twins, place);
    }
    place
}

// The next use behind a place's twin.
fn across(after: &[u32], twins: &[u32], place: usize) -> usize
    requires { CrossableAt after.now twins.now place }
    ensures { Found
        (length twins.now) result (get_or after.now (get_or twins.now place 0) 0) }
{
    let twin = twins[place] as usize;
    after[twin] as usize
}
