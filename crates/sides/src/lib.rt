// The edges of triangles as columns of numbers, one number for each use of an edge: its lower and its higher position, and its wing, the
// position across from it. The uses come face after face, in the Rust's order: the edge across from the first corner, from the second,
// from the third. A stable sort then marks each use with the first use of its edge; nothing is searched for.
#![tactic(auto)]

ghost use Rattle.std.specs.Prelude.{◌≡◌, ℕ, ◌*◌};
ghost use Rattle.mesh.specs.Limits.{least_ring};
ghost use Rattle.verdicts.specs.Edges.{key};
ghost use Rattle.smoothed.specs.Columns.{triangles};
ghost use Rattle.sides.specs.Sides.{SideRoom, Sides, EdgeColumns, Marked};
ghost use Rattle.sides.specs.Steps.{uses_at, FaceRoom, FaceSides, UseRoom, UseWritten};

// The digit that every use has in place of its normals: where all are alike they change no order.
const ALIKE: u32 = 1;

// How many numbers a triangle has.
const TRIANGLE: usize = mesh::WIDTH * mesh::LEAST_RING;

// The three columns of all uses.
pub fn put_sides(corners: &[u32], lower: &mut [u32], higher: &mut [u32], wing: &mut [u32])
    requires { SideRoom corners.now lower.old higher.old wing.old }
    ensures { Sides (triangles corners.now) lower.new higher.new wing.new }
{
    for k in 0..corners.len() / TRIANGLE {
        put_face(corners, k, lower, higher, wing);
    }
}

// The three uses of triangle `k`.
fn put_face(corners: &[u32], k: usize, lower: &mut [u32], higher: &mut [u32], wing: &mut [u32])
    requires { FaceRoom corners.now k lower.old higher.old wing.old }
    ensures { FaceSides (uses_at corners.now k) (least_ring * k) lower.old higher.old wing.old
        lower.new higher.new wing.new }
{
    let at = mesh::LEAST_RING * k;
    let a = corners[mesh::WIDTH * at];
    let b = corners[mesh::WIDTH * (at + 1)];
    let c = corners[mesh::WIDTH * (at + 2)];
    put_side(b, c, a, lower, higher, wing, at);
    put_side(c, a, b, lower, higher, wing, at + 1);
    put_side(a, b, c, lower, higher, wing, at + 2);
}

// The use of the edge between `p` and `q`, across from which `r` stands.
fn put_side(
    p: u32,
    q: u32,
    r: u32,
    lower: &mut [u32],
    higher: &mut [u32],
    wing: &mut [u32],
    at: usize,
)
    requires { UseRoom at lower.old higher.old wing.old }
    ensures { UseWritten (key (p, q), r) at lower.old higher.old wing.old lower.new higher.new wing.new }
{
    lower[at] = p.min(q);
    higher[at] = p.max(q);
    wing[at] = r;
}

// Each use is marked with the first use of its edge.
pub fn mark_firsts(lower: &[u32], higher: &[u32], firsts: &mut [u32])
    requires { EdgeColumns lower.now higher.now firsts.old }
    ensures { Marked lower.now higher.now firsts.new }
{
    let alike = [ALIKE; mesh::CORNERS];
    let mut order = [0u32; mesh::CORNERS];
    let u = lower.len();
    keys::firsts::put_firsts(
        lower,
        higher,
        &alike[..u],
        &alike[..u],
        false,
        &mut order[..u],
        firsts,
    );
}
