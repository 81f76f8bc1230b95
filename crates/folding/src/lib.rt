// What becomes of a face that may be folded: document 01, 'Folded faces', as `degenerate_triangle`, `degenerate_quadrangle` and
// `split_into_nondegenerate` have it. A corner's first number, its position, decides. A larger face is split by its places, in crate places.
#![tactic(auto)]

ghost use Rattle.std.specs.Prelude.{◌≡◌};
ghost use Rattle.mesh.specs.Mesh.{corners_in};
ghost use Rattle.splitting.specs.Splitting.{first_mated};
ghost use Rattle.folding.specs.Folding.{fold_of, without_q1, without_q3, folded};
ghost use Rattle.folding.specs.Working.{Splittable, WithPlaces};

use grouping::Filled;
use mesh::WIDTH;

// What becomes of a quadrangle q0..q3.
#[derive(Clone, Copy)]
pub enum Fold {
    Goes,
    WithoutQ1,
    WithoutQ3,
    Stays,
}

// The decision on a triangle: whether it is folded.
#[tactic(auto, using(crate::proofs::Pieces::folded_three))]
pub fn degenerate_triangle(tri: [[u32; WIDTH]; 3]) -> bool
    ensures { result ≡ folded tri }
{
    let t0 = tri[0][0];
    let t1 = tri[1][0];
    let t2 = tri[2][0];
    t0 == t1 || t1 == t2 || t2 == t0
}

// The decision on a quadrangle.
#[tactic(auto, unfolding(crate::specs::Folding::fold_of))]
pub fn degenerate_quadrangle(quad: [[u32; WIDTH]; 4]) -> Fold
    ensures { result ≡ fold_of quad }
{
    let q0 = quad[0][0];
    let q1 = quad[1][0];
    let q2 = quad[2][0];
    let q3 = quad[3][0];
    if q0 == q2 || q1 == q3 || (q0 == q1 && q2 == q3) || (q1 == q2 && q3 == q0) {
        Fold::Goes
    } else if q0 == q1 || q1 == q2 {
        Fold::WithoutQ1
    } else if q2 == q3 || q3 == q0 {
        Fold::WithoutQ3
    } else {
        Fold::Stays
    }
}

// The triangle (q0,q2,q3).
pub fn without_q1(quad: [[u32; WIDTH]; 4]) -> [[u32; WIDTH]; 3]
    ensures { result ≡ without_q1 quad }
{
    let [q0, _, q2, q3] = quad;
    [q0, q2, q3]
}

// The triangle (q0,q1,q2).
pub fn without_q3(quad: [[u32; WIDTH]; 4]) -> [[u32; WIDTH]; 3]
    ensures { result ≡ without_q3 quad }
{
    let [q0, q1, q2, _] = quad;
    [q0, q1, q2]
}

// The first place whose position comes again behind it, or how many there are.
pub fn first(places: &[u32]) -> usize
    ensures { result ≡ first_mated places.now }
{
    for i in 0..places.len() {
        if places[i + 1..].contains(&places[i]) {
            return i;
        }
    }
    places.len()
}

// The pieces of a larger face go to two lists, corners and sizes, behind what is written, and to a third, from its beginning on, which
// corners of the face they took. The row has an entry for each corner of the face; the work is done there, and what stands in it before
// does not matter.
pub fn split_into_nondegenerate(
    face: &[u32],
    row: &mut [u32],
    took: &mut [u32],
    out: &mut [u32],
    lens: &mut [u32],
    at: Filled,
) -> Filled
    requires { Splittable face.now row.old took.old out.old lens.old at.corners at.faces }
    ensures { WithPlaces (corners_in face.now) row.new took.old took.new
        out.old out.new lens.old lens.new
        at.corners at.faces result.corners result.faces }
{
    let c = at.corners;
    let from = Filled {
        corners: 0,
        faces: at.faces,
    };
    let left = places::split_ring(face, row, took, lens, from);
    places::put_places(face, &took[..left.corners], out, WIDTH * c);
    Filled {
        corners: c + left.corners,
        faces: left.faces,
    }
}
