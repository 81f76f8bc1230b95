// The f64 of document 01, and nothing else: what its table asks of one number, points and their box, scaling, the cell of a
// quotient, and the distance of two points. Each operation is one f64 operation, in the order that the document writes.
// Clients cite specs/: `unfit`, `boundless`, `distant` and `finite` of the table, `scaled_list`, `cell`, `compared` and `near`.
#![tactic(auto)]

ghost use Rattle.std.specs.Prelude.{◌≡◌, false, ◌+◌, ◌*◌, ◌≤◌, length};
ghost use Rattle.std.proofs.lemmas.List.Edits.{sets};
ghost use Rattle.std.specs.Float.{binary64};
ghost use Rattle.std.specs.Float.Ieee.{of_bits, add, div};
ghost use Rattle.lists.specs.Lists.{every};
ghost use Rattle.floating.specs.Limits.{unfit, boundless, far, distant, finite};
ghost use Rattle.floating.specs.Points.{coordinates, leading, points_of, row, Whole};
ghost use Rattle.floating.specs.Scaling.{lesser, greater, scaled_of, OnAxes, axes1, axes2, axes3, box_with, box_of, centre, divisor, scaled_list};
ghost use Rattle.floating.specs.Cells.{cut, place};
ghost use Rattle.floating.specs.Near.{squared};

// A position or a normal; a texture point; the box of some positions.
#[derive(Clone, Copy)]
pub struct Point {
    pub x: f64,
    pub y: f64,
    pub z: f64,
}

#[derive(Clone, Copy)]
pub struct Texel {
    pub u: f64,
    pub v: f64,
}

#[derive(Clone, Copy)]
pub struct Bounds {
    pub least: Point,
    pub greatest: Point,
}

// The least tolerance, 2^-30, and the greatest; the greatest magnitude of a coordinate, 2^60; what that of a quotient stays below, 2^53, as
// a number and among the cells.
const LEAST_TOLERANCE: f64 = 0.000000000931322574615478515625;

const GREATEST_TOLERANCE: f64 = 1.0;

const COORDINATE_MOST: f64 = 1152921504606846976.0;

const QUOTIENT_EDGE: f64 = 9007199254740992.0;

const QUOTIENT_LIMIT: i64 = 0x20_0000_0000_0000;

// ---- bits

// The f64 that 64 bits stand for; each pattern of a NaN gives the one NaN.
pub fn of_bits(n: u64) -> f64
    ensures { result ≡ of_bits binary64 n }
{
    std::num::f64_from_bits_with_nan(n)
}

// ---- what the table asks of one number

// 6: tolerance is not a number from 2^-30 to 1 inclusive.
pub fn is_unfit(t: f64) -> bool
    ensures { result ≡ unfit t }
{
    !(LEAST_TOLERANCE <= t && t <= GREATEST_TOLERANCE)
}

// 7: a coordinate is not finite, or its magnitude is above 2^60.
pub fn is_boundless(x: f64) -> bool
    ensures { result ≡ boundless x }
{
    !(-COORDINATE_MOST <= x && x <= COORDINATE_MOST)
}

// 8: a coordinate divided by the tolerance has magnitude 2^53 or more.
pub fn is_distant(t: f64, x: f64) -> bool
    ensures { result ≡ distant t x }
{
    let q = x / t;
    !(-QUOTIENT_EDGE < q && q < QUOTIENT_EDGE)
}

// 14: a coordinate is finite.
pub fn is_finite(x: f64) -> bool
    ensures { result ≡ finite x }
{
    x.is_finite()
}

// Every coordinate of a list is.
pub fn are_finite(s: &[f64]) -> bool
    ensures { result ≡ every finite s.now }
{
    s.iter().all(|x| is_finite(*x))
}

// ---- points of a flat list

// Point i of a list of width 2 or 3. A texture point gets a third coordinate, which no rule of width 2 reads.
pub fn attr_at(s: &[f64], w: usize, i: usize) -> Point
    requires { (2 ≤ w) × (w ≤ 3) × (w * i + w ≤ length s.now) }
    ensures { leading w result ≡ row w s.now i }
{
    let a = w * i;
    Point {
        x: s[a],
        y: s[a + 1],
        z: if w == 2 { 0.0 } else { s[a + 2] },
    }
}

// The squared distance at width 2 or 3: squares are summed left to right.
pub fn distance2(w: usize, p: Point, q: Point) -> f64
    requires { (2 ≤ w) × (w ≤ 3) }
    ensures { result ≡ squared (leading w p) (leading w q) }
{
    let x = p.x - q.x;
    let y = p.y - q.y;
    let z = p.z - q.z;
    let two = x * x + y * y;
    if w == 2 {
        return two;
    }
    two + z * z
}

// The sum of two points, and a point divided by a number, on each axis.
pub fn plus(p: Point, q: Point) -> Point
    ensures { result ≡ axes2 (add binary64) p q }
{
    Point {
        x: p.x + q.x,
        y: p.y + q.y,
        z: p.z + q.z,
    }
}

pub fn over(p: Point, d: f64) -> Point
    ensures { result ≡ axes1 (λ x. div binary64 x d) p }
{
    Point {
        x: p.x / d,
        y: p.y / d,
        z: p.z / d,
    }
}

// ---- the box, and scaling

// A rule of one axis, at each of the three.
fn on_axes<F: Fn(f64, f64) -> f64>(rule: F, p: Point, q: Point) -> Point
    requires { F.IsAlwaysCallable rule }
    ensures { OnAxes (F.post rule) p q result }
{
    Point {
        x: rule(p.x, q.x),
        y: rule(p.y, q.y),
        z: rule(p.z, q.z),
    }
}

// `f64::min` and `f64::max` answer the other number where one is a NaN, and either of two that are equal; the rule says which.
fn lesser_of(a: f64, b: f64) -> f64
    ensures { result ≡ lesser a b }
{
    if b < a { b } else { a }
}

fn greater_of(a: f64, b: f64) -> f64
    ensures { result ≡ greater a b }
{
    if a < b { b } else { a }
}

// The box that has one point more.
fn with_point(b: Bounds, p: Point) -> Bounds
    ensures { result ≡ box_with b p }
{
    Bounds {
        least: on_axes(lesser_of, b.least, p),
        greatest: on_axes(greater_of, b.greatest, p),
    }
}

// least + (greatest - least)/2, on each axis.
fn centre_of(b: Bounds) -> Point
    ensures { result ≡ centre b }
{
    on_axes(|l, g| l + (g - l) / 2.0, b.least, b.greatest)
}

// The larger of greatest - least and 1, on each axis.
fn divisor_of(b: Bounds) -> Point
    ensures { result ≡ divisor b }
{
    on_axes(|l, g| greater_of(g - l, 1.0), b.least, b.greatest)
}

// 2·((p - centre)/divisor), on each axis.
fn scaled_by(p: Point, c: Point, d: Point) -> Point
    ensures { result ≡ axes3 scaled_of p c d }
{
    Point {
        x: 2.0 * ((p.x - c.x) / d.x),
        y: 2.0 * ((p.y - c.y) / d.y),
        z: 2.0 * ((p.z - c.z) / d.z),
    }
}

// The box of all positions, of which there is one at least.
fn box_of(positions: &[f64]) -> Bounds
    requires { Whole positions.now }
    ensures { result ≡ box_of (points_of positions.now) }
{
    let first = attr_at(positions, 3, 0);
    let mut b = Bounds {
        least: first,
        greatest: first,
    };
    for i in 1..positions.len() / 3 {
        b = with_point(b, attr_at(positions, 3, i));
    }
    b
}

// A point goes to place i of a flat list.
pub fn put_point(p: Point, out: &mut [f64], i: usize)
    requires { 3 * i + 3 ≤ length out.old }
    ensures { out.new ≡ sets out.old (3 * i) (coordinates p) }
{
    lists::put(&[p.x, p.y, p.z], out, 3 * i);
}

// The scaled positions go to `out`.
pub fn scale(positions: &[f64], out: &mut [f64])
    requires { Whole positions.now × (length positions.now ≤ length out.old) }
    ensures { out.new ≡ sets out.old 0 (scaled_list positions.now) }
{
    let b = box_of(positions);
    let c = centre_of(b);
    let d = divisor_of(b);
    for i in 0..positions.len() / 3 {
        put_point(scaled_by(attr_at(positions, 3, i), c, d), out, i);
    }
}

// ---- cells

// The cell of a quotient, as its place among the numbers from 0: cut toward zero.
pub fn cell_of(q: f64) -> u64
    requires { far q ≡ false }
    ensures { result ≡ place (cut q) }
{
    (QUOTIENT_LIMIT + std::num::saturating_f64_to_i64(q)) as u64
}
