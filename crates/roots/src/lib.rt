// Whole square roots, and the squared distance of two points whose coordinates are within a million either way: what the lengths of
// hems are made of (document 02, CR 13).
#![tactic(auto)]

ghost use Rattle.std.specs.Prelude.{◌≡◌};
ghost use Rattle.roots.specs.Roots.{Root, Within};
ghost use Rattle.roots.specs.Distances.{apart_by, squares, squared_distance, Reached, Spanned};

// The length of an edge between two points: the greatest whole number whose square is at most the squared distance. It is not below the
// greatest of the three differences, and not above twice that, so that short edges take few steps.
pub fn length_between(ax: i32, ay: i32, az: i32, bx: i32, by: i32, bz: i32) -> u64
    requires { Reached (ax, ay, az) × Reached (bx, by, bz) }
    ensures { Root (squared_distance (ax, ay, az) (bx, by, bz)) result }
{
    let x = apart(ax, bx);
    let y = apart(ay, by);
    let z = apart(az, bz);
    let least = x.max(y).max(z);
    root_between(squared(x, y, z), least, least + least + 1)
}

// The greatest whole number whose square is at most x, not below `least` and below `beyond`. The room between the two bounds is halved until
// they stand side by side. The library's `isqrt` halves from 2^32 down, 32 times whatever the number: with it the list of hems took up to 1.7 times as long.
fn root_between(x: u64, least: u64, beyond: u64) -> u64
    requires { Within x least beyond }
    ensures { Root x result }
{
    let mut low = least;
    let mut high = beyond;
    while low + 1 < high {
        let middle = (low + high) / 2;
        if middle * middle <= x {
            low = middle;
        } else {
            high = middle;
        }
    }
    low
}

// The squared distance by the three differences.
fn squared(x: u64, y: u64, z: u64) -> u64
    requires { Spanned x y z }
    ensures { result ≡ squares x y z }
{
    x * x + y * y + z * z
}

// How far two signed numbers are apart.
pub fn apart(a: i32, b: i32) -> u64
    ensures { result ≡ apart_by a b }
{
    u64::from(a.abs_diff(b))
}
