// Coordinates and points in bytes.
ghost use Rattle.std.specs.Prelude.{◌≡◌, [], ◌∷◌, ◌+◌, ◌≤◌, length};
ghost use Rattle.lists.specs.Lists.{every};
ghost use Rattle.floating.specs.Limits.{finite};
ghost use Rattle.floating.specs.Points.{coordinates};
ghost use Rattle.records.specs.Lengths.{coordinate_length, point_length, texel_length};
ghost use Rattle.records.specs.Records as records;

use crate::COORDINATE_LENGTH;
use floating::{Point, Texel};

// Where the third coordinate of a point stands.
const THIRD: usize = 2 * COORDINATE_LENGTH;

// The f64 of eight bytes.
#[tactic(auto, unfolding(crate::specs::Records::coordinate))]
pub fn coordinate(s: &[u8], i: usize) -> f64
    requires { i + coordinate_length ≤ length s.now }
    ensures { result ≡ records.coordinate s.now i }
{
    floating::of_bits(little::long(s, i))
}

#[tactic(auto, unfolding(crate::specs::Records::point_from))]
pub fn point_from(s: &[u8], i: usize) -> Point
    requires { i + point_length ≤ length s.now }
    ensures { result ≡ records.point_from s.now i }
{
    Point {
        x: coordinate(s, i),
        y: coordinate(s, i + COORDINATE_LENGTH),
        z: coordinate(s, i + THIRD),
    }
}

#[tactic(auto, unfolding(crate::specs::Records::texel_from))]
pub fn texel_from(s: &[u8], i: usize) -> Texel
    requires { i + texel_length ≤ length s.now }
    ensures { result ≡ records.texel_from s.now i }
{
    Texel {
        u: coordinate(s, i),
        v: coordinate(s, i + COORDINATE_LENGTH),
    }
}

// Every coordinate is finite.
pub fn point_is_finite(p: Point) -> bool
    ensures { result ≡ every finite (coordinates p) }
{
    floating::is_finite(p.x) && floating::is_finite(p.y) && floating::is_finite(p.z)
}

pub fn texel_is_finite(t: Texel) -> bool
    ensures { result ≡ every finite (t.u ∷ t.v ∷ []) }
{
    floating::is_finite(t.u) && floating::is_finite(t.v)
}
