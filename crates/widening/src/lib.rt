// The points of a scan, one at a time: where one stands, its bits, and the numbers that they stand for. A negative zero is read as zero
// first, and an f32 becomes an f64 with nothing lost. The rules stand in crate scanned.
#![tactic(auto)]

ghost use Rattle.std.specs.Prelude.{◌≡◌, not, ℕ, ◌+◌, ◌*◌, ◌<◌, ◌≤◌, ◌%◌, length};
ghost use Rattle.std.specs.Float.{binary32};
ghost use Rattle.std.specs.Float.Ieee.{of_bits};
ghost use Rattle.lists.specs.Lists.{every};
ghost use Rattle.floating.specs.Limits.{finite};
ghost use Rattle.floating.specs.Points.{coordinates};
ghost use Rattle.mesh.specs.Limits.{corner_limit};
ghost use Rattle.little.specs.Little.{word_values, word};
ghost use Rattle.scanned.specs.Scan as scan;
ghost use Rattle.widening.specs.Halves.{half_points, half_of};

use floating::Point;

// Where the triangles begin, and how many bytes each has; where its points begin, and how many bytes a point and a coordinate have.
pub const FRONT_BYTES: usize = 84;

pub const TRIANGLE_BYTES: usize = 50;

const NORMAL_BYTES: usize = 12;

const POINT_BYTES: usize = 12;

const COORDINATE_BYTES: usize = 4;

// The bits of an f32: its sign above all; MINUS_ZERO has nothing else. INFINITY is the greatest that are no NaN's.
const SIGN: u32 = 2147483648;

const MINUS_ZERO: u32 = SIGN;

const INFINITY: u32 = 2139095040;

// How many values four bytes have, and two.
const WORD_VALUES: u64 = 4294967296;

const HALF_VALUES: u64 = 65536;

// Where point `k` begins, counted over all triangles.
#[tactic(auto, unfolding(scanned::specs::Scan::point_place))]
pub fn place_of(k: usize) -> usize
    requires { k < corner_limit }
    ensures { result ≡ scan.point_place k }
{
    FRONT_BYTES
        + TRIANGLE_BYTES * (k / mesh::LEAST_RING)
        + NORMAL_BYTES
        + POINT_BYTES * (k % mesh::LEAST_RING)
}

// A negative zero is read as zero.
fn plain(n: u32) -> u32
    ensures { (result ≡ scan.plain n) × (result < word_values) }
{
    if n == MINUS_ZERO { 0 } else { n }
}

// The bits of one coordinate.
fn bits_at(file: &[u8], i: usize) -> u32
    requires { i + scan.coordinate_bytes ≤ length file.now }
    ensures { (result ≡ scan.plain (word file.now i)) × (result < word_values) }
{
    plain(little::word(file, i))
}

// The f32 that 32 bits stand for, as an f64: the same number. Each pattern of a NaN gives the one NaN.
fn widened(n: u32) -> f64
    ensures { result ≡ scan.widened n }
{
    if n % SIGN > INFINITY {
        return 0.0 / 0.0;
    }
    f32::from_bits(n) as f64
}

// The point whose bytes begin at `i`.
pub fn point_from(file: &[u8], i: usize) -> Point
    requires { i + scan.point_bytes ≤ length file.now }
    ensures { coordinates result ≡ scan.coordinates_of (scan.point_from file.now i) }
{
    let x = bits_at(file, i);
    let y = bits_at(file, i + COORDINATE_BYTES);
    let z = bits_at(file, i + 2 * COORDINATE_BYTES);
    Point {
        x: widened(x),
        y: widened(y),
        z: widened(z),
    }
}

// Whether it is not finite.
#[tactic(auto, unfolding(scanned::specs::Scan::not_finite))]
pub fn not_finite_from(file: &[u8], i: usize) -> bool
    requires { i + scan.point_bytes ≤ length file.now }
    ensures { result ≡ scan.not_finite (scan.point_from file.now i) }
{
    not_finite(point_from(file, i))
}

fn not_finite(p: Point) -> bool
    ensures { result ≡ not (every finite (coordinates p)) }
{
    !(floating::is_finite(p.x) && floating::is_finite(p.y) && floating::is_finite(p.z))
}

// Half of its bits: the lower 48, or the upper.
pub fn half_from(file: &[u8], i: usize, upper: bool) -> u64
    requires { i + scan.point_bytes ≤ length file.now }
    ensures { (result ≡ half_of upper (scan.point_from file.now i)) × (result < half_points) }
{
    let x = bits_at(file, i) as u64;
    let y = bits_at(file, i + COORDINATE_BYTES) as u64;
    let z = bits_at(file, i + 2 * COORDINATE_BYTES) as u64;
    if upper {
        return y / HALF_VALUES + HALF_VALUES * z;
    }
    x + WORD_VALUES * (y % HALF_VALUES)
}
