// Where smoothing puts positions: the old ones moved, then one on each edge, read from rows of numbers that say how many neighbours a
// position has, which two lie along a hem, the sum of how far all lie from it, and an edge's ends and wings (the Rust's
// `calc_new_position` and `edge_positions`). Clients cite `moved_list` and `middle_list`, and the laws of proofs/Fitting: of the rows of a
// mesh these are the rules of smoothing.
#![tactic(auto)]

ghost use Rattle.std.specs.Prelude.{◌≡◌, ◌*◌, ◌<◌, length};
ghost use Rattle.std.proofs.lemmas.List.Edits.{sets};
ghost use Rattle.floating.specs.Points.{coordinates};
ghost use Rattle.mesh.specs.Limits.{point_width};
ghost use Rattle.smoothed.specs.Positions.{axes};
ghost use Rattle.moved.specs.Rows.{moved_at, moved_list, share_at, middle_at, middle_list, Counted, Movable, Halvable, Room};

use floating::Point;
use mesh::POINT_WIDTH;

mod arithmetic;

// A corner has two neighbours; an edge of a hem has one wing.
const CORNER: u32 = 2;

const SINGLE: u32 = 1;

// ---- old positions

// Each goes to its own place.
pub fn put_moved(
    positions: &[f64],
    degrees: &[u32],
    first: &[u32],
    second: &[u32],
    pulls: &[f64],
    twos: &[f64],
    out: &mut [f64],
)
    requires { (Movable positions.now degrees.now first.now second.now pulls.now twos.now) × (Room out.old 0 (length degrees.now)) }
    ensures { out.new ≡ sets out.old 0
        (moved_list positions.now degrees.now first.now second.now pulls.now twos.now) }
{
    for v in 0..degrees.len() {
        let p = moved(positions, degrees, first, second, pulls, twos, v);
        floating::put_point(p, out, v);
    }
}

// Where position v moves to: nowhere at a corner, by two neighbours on the boundary, by all inside.
fn moved(
    positions: &[f64],
    degrees: &[u32],
    first: &[u32],
    second: &[u32],
    pulls: &[f64],
    twos: &[f64],
    v: usize,
) -> Point
    requires { (Movable positions.now degrees.now first.now second.now pulls.now twos.now) × (v < length degrees.now) }
    ensures { coordinates result ≡ axes (λ a. moved_at
        positions.now degrees.now first.now second.now pulls.now twos.now a v) }
{
    let p = floating::attr_at(positions, POINT_WIDTH, v);
    let n = degrees[v];
    let y = second[v];
    if y == mesh::MISSING {
        return arithmetic::draw(
            p,
            floating::attr_at(pulls, POINT_WIDTH, v),
            arithmetic::weight_of(twos, n),
        );
    }
    if n == CORNER {
        return p;
    }
    let x = first[v] as usize;
    arithmetic::bend(
        p,
        floating::attr_at(positions, POINT_WIDTH, x),
        floating::attr_at(positions, POINT_WIDTH, y as usize),
    )
}

// ---- one position for each edge

// That of edge e goes behind `at` others.
pub fn put_middles(
    positions: &[f64],
    lowers: &[u32],
    highers: &[u32],
    firsts: &[u32],
    seconds: &[u32],
    wings: &[u32],
    degrees: &[u32],
    second: &[u32],
    ones: &[f64],
    out: &mut [f64],
    at: usize,
)
    requires { (Halvable positions.now lowers.now highers.now firsts.now seconds.now wings.now degrees.now second.now ones.now)
        × (Room out.old at (length lowers.now)) }
    ensures { out.new ≡ sets out.old (point_width * at)
        (middle_list
        positions.now lowers.now highers.now firsts.now seconds.now wings.now
        degrees.now second.now ones.now) }
{
    for e in 0..lowers.len() {
        let p = middle(
            positions, lowers, highers, firsts, seconds, wings, degrees, second, ones, e,
        );
        floating::put_point(p, out, at + e);
    }
}

// The position on edge e: half way where it has one wing.
fn middle(
    positions: &[f64],
    lowers: &[u32],
    highers: &[u32],
    firsts: &[u32],
    seconds: &[u32],
    wings: &[u32],
    degrees: &[u32],
    second: &[u32],
    ones: &[f64],
    e: usize,
) -> Point
    requires { (Halvable positions.now lowers.now highers.now firsts.now seconds.now wings.now degrees.now second.now ones.now)
        × (e < length lowers.now) }
    ensures { coordinates result ≡ axes (λ a. middle_at
        positions.now lowers.now highers.now firsts.now seconds.now wings.now
        degrees.now second.now ones.now a e) }
{
    let v = lowers[e] as usize;
    let w = highers[e] as usize;
    let p = floating::attr_at(positions, POINT_WIDTH, v);
    let q = floating::attr_at(positions, POINT_WIDTH, w);
    if wings[e] == SINGLE {
        return arithmetic::midpoint(p, q);
    }
    let f = floating::attr_at(positions, POINT_WIDTH, firsts[e] as usize);
    let s = floating::attr_at(positions, POINT_WIDTH, seconds[e] as usize);
    arithmetic::between(p, q, f, s, share(degrees, second, ones, v, w))
}

// How far along an edge with two wings, from v to w. Neither end is a corner then, so one with a second hem neighbour is on the boundary.
fn share(degrees: &[u32], second: &[u32], ones: &[f64], v: usize, w: usize) -> f64
    requires { (Counted degrees.now second.now ones.now) × (v < length degrees.now) × (w < length degrees.now) }
    ensures { result ≡ share_at degrees.now second.now ones.now v w }
{
    if second[v] != mesh::MISSING {
        return arithmetic::rest_of(arithmetic::cosine_of(ones, degrees[v]));
    }
    if second[w] != mesh::MISSING {
        return arithmetic::spread_of(arithmetic::cosine_of(ones, degrees[w]));
    }
    arithmetic::HALF
}
