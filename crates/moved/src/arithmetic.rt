// The formulas of smoothing, one f64 operation at a time, in the Rust's order: on points, and the weights that depend on how many
// neighbours a position has.
ghost use Rattle.std.specs.Prelude.{◌≡◌, ◌≤◌, length};
ghost use Rattle.std.specs.Float.{binary64};
ghost use Rattle.std.specs.Float.Ieee.{sub, mul};
ghost use Rattle.floating.specs.Scaling.{axes1, axes2, axes3};
ghost use Rattle.smoothed.specs.Positions.{quartered, five_eighths, cosine, spread, weight};
ghost use Rattle.moved.specs.Axis.{bent, drawn, halfway, winged, axes4};

use floating::Point;

// 3/8, 5/8 and 1/2: exact, as the Rust's quotients are.
const THREE_EIGHTHS: f64 = 0.375;

const FIVE_EIGHTHS: f64 = 0.625;

pub const HALF: f64 = 0.5;

// ---- points

// The difference of two points, and a point times a number, on each axis.
fn minus(p: Point, q: Point) -> Point
    ensures { result ≡ axes2 (sub binary64) p q }
{
    Point {
        x: p.x - q.x,
        y: p.y - q.y,
        z: p.z - q.z,
    }
}

fn times(p: Point, d: f64) -> Point
    ensures { result ≡ axes1 (λ x. mul binary64 x d) p }
{
    Point {
        x: p.x * d,
        y: p.y * d,
        z: p.z * d,
    }
}

// p on the boundary, between x and y: an eighth of the way to both.
pub fn bend(p: Point, x: Point, y: Point) -> Point
    ensures { result ≡ axes3 bent p x y }
{
    let both = floating::plus(minus(x, p), minus(y, p));
    floating::plus(p, floating::over(both, 8.0))
}

// p inside, by the sum of how far its neighbours lie from it.
pub fn draw(p: Point, pull: Point, weight: f64) -> Point
    ensures { result ≡ axes2 (drawn weight) p pull }
{
    floating::plus(p, times(pull, weight))
}

// Half way from p to q.
pub fn midpoint(p: Point, q: Point) -> Point
    ensures { result ≡ axes2 halfway p q }
{
    floating::plus(p, floating::over(minus(q, p), 2.0))
}

// On the edge from p to q, a share of the way, drawn to its wings f and s.
pub fn between(p: Point, q: Point, f: Point, s: Point, share: f64) -> Point
    ensures { result ≡ axes4 (winged share) p q f s }
{
    let on = floating::plus(p, times(minus(q, p), share));
    let first = floating::plus(on, floating::over(minus(f, p), 8.0));
    floating::plus(first, floating::over(minus(s, q), 8.0))
}

// ---- weights

// Cosine number n, of a list that begins with n = 1.
pub fn cosine_of(cosines: &[f64], n: u32) -> f64
    requires { (1 ≤ n) × (n ≤ length cosines.now) }
    ensures { result ≡ cosine cosines.now n }
{
    cosines[n as usize - 1]
}

// 3/8 + c/4, and 5/8 - c/4.
pub fn spread_of(c: f64) -> f64
    ensures { result ≡ spread c }
{
    THREE_EIGHTHS + c / 4.0
}

pub fn rest_of(c: f64) -> f64
    ensures { result ≡ sub binary64 five_eighths (quartered c) }
{
    FIVE_EIGHTHS - c / 4.0
}

// The weight of each of n neighbours.
pub fn weight_of(twos: &[f64], n: u32) -> f64
    requires { (1 ≤ n) × (n ≤ length twos.now) }
    ensures { result ≡ weight twos.now n }
{
    let a = spread_of(cosine_of(twos, n));
    (FIVE_EIGHTHS - a * a) / f64::from(n)
}
