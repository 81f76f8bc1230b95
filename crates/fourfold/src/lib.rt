// Four triangles for one, as the Rust's `loop_subdivision` writes them: the three at the corners, then the one in the middle. Old corners
// keep their texture, normal and mark; the corners on the edges carry none. The rule is `four` in smoothed's specs/Smoothed.antt.
#![tactic(auto)]

ghost use Rattle.std.specs.Prelude.{◌≡◌, [], ◌∷◌, ◌+◌, ◌*◌, ◌≤◌, length, replicate};
ghost use Rattle.std.proofs.lemmas.List.Edits.{sets};
ghost use Rattle.lists.specs.Lists.{joined, each};
ghost use Rattle.mesh.specs.Limits.{least_ring, entry_limit, corner_limit};
ghost use Rattle.smoothed.specs.Smoothed.{fold, bare, quartered, smoothed_faces};
ghost use Rattle.smoothed.specs.Columns.{triangles};
ghost use Rattle.fourfold.specs.Working.{triangle_numbers, Given, four_at, FourRoom};

use mesh::{LEAST_RING, MISSING, WIDTH};

// So many triangles for one.
pub const FOLD: usize = 4;

// How many numbers a triangle has, and those that come of one.
const TRIANGLE: usize = LEAST_RING * WIDTH;

const FOUR: usize = FOLD * TRIANGLE;

// The corners of the new faces go to the front of `out`. The numbers are those of the edges, three for each triangle; so many positions
// there are before.
pub fn put_faces(corners: &[u32], numbers: &[u32], positions: usize, out: &mut [u32])
    requires { Given corners.now numbers.now positions out.old }
    ensures { out.new ≡ sets out.old 0 (each joined (smoothed_faces positions (triangles corners.now))) }
{
    for k in 0..corners.len() / TRIANGLE {
        put_four(corners, numbers, positions, k, out);
    }
}

// And their sizes to the front of `out`, of so many triangles.
pub fn put_sizes(faces: usize, out: &mut [u32])
    requires { fold * faces ≤ length out.old }
    ensures { out.new ≡ sets out.old 0 (replicate (fold * faces) least_ring) }
{
    out[..FOLD * faces].fill(LEAST_RING as u32);
}

// The four triangles of triangle k: the three at its corners, each with the two edges that meet there, then the one in the middle. e0
// stands across from v0, e1 from v1, e2 from v2.
fn put_four(corners: &[u32], numbers: &[u32], positions: usize, k: usize, out: &mut [u32])
    requires { FourRoom corners.now numbers.now positions k out.old }
    ensures { out.new ≡ sets out.old (fold * triangle_numbers * k) (each joined (four_at corners.now numbers.now positions k)) }
{
    let a = LEAST_RING * k;
    let v0 = mesh::corner_at(corners, a);
    let v1 = mesh::corner_at(corners, a + 1);
    let v2 = mesh::corner_at(corners, a + 2);
    let e0 = inner_corner(positions, numbers[a]);
    let e1 = inner_corner(positions, numbers[a + 1]);
    let e2 = inner_corner(positions, numbers[a + 2]);
    let four = [[v0, e2, e1], [e0, v2, e1], [e0, e2, v1], [e0, e1, e2]];
    lists::put(four.as_flattened().as_flattened(), out, FOUR * k);
}

// The corner on an edge: behind the old positions, by the edge's number, with no texture, no normal and no mark.
fn inner_corner(positions: usize, number: u32) -> [u32; WIDTH]
    requires { (positions ≤ entry_limit) × (number ≤ corner_limit) }
    ensures { result ≡ bare (positions + number) }
{
    [positions as u32 + number, MISSING, MISSING, 0]
}
