// What smoothing asks of a mesh and of the cosines before it counts anything (document 02, 'CR 4'): each test is a function, and `number`
// has them in the document's order. How many neighbours a position has is known only later: `crowded` asks that of the counts.
#![tactic(auto)]

ghost use Rattle.std.specs.Prelude.{◌≡◌, not, ◌||◌, [], ◌∷◌, ◌+◌, ◌*◌, ◌≤◌, length, ltb, eqb};
ghost use Rattle.lists.specs.Lists.{some};
ghost use Rattle.mesh.specs.Limits.{width, least_ring, corner_numbers};
ghost use Rattle.mesh.specs.Mesh.{mesh_of, corner_at, rings};
ghost use Rattle.mesh.specs.Edges.{edges_of, Edged};
ghost use Rattle.verdicts.specs.Edges.{verdict};
ghost use Rattle.folding.specs.Folding.{folded};
ghost use Rattle.edges.specs.Answers.{verdict_of};
ghost use Rattle.floating.specs.Limits.{boundless};
ghost use Rattle.smoothed.specs.Smoothed.{all_used};
ghost use Rattle.smoothed.specs.Columns.{triangles, Triangular};
ghost use Rattle.smoothed.specs.Refusals.{oriented, cosine_count, within_one, unfit_list};
ghost use Rattle.smoothable.specs.Early.{early_number};
ghost use Rattle.smoothable.specs.Working.{Markable, Marked};

use edges::ShellCondition;
use mesh::{LEAST_RING, POINT_WIDTH, WIDTH};

// How long a list of cosines is, and how many neighbours a position may have: one cosine for each number of them.
const COSINES: usize = 64;

const NEIGHBOURS: usize = COSINES;

// How many numbers a triangle has.
const TRIANGLE: usize = LEAST_RING * WIDTH;

// The mark of a position that is in some face.
const USED: u32 = 1;

// The number that the lists earn before anything is counted: rows 1 to 5 of the mesh, then 7, 15, 16, 10 and 17, or 0.
pub fn number(
    positions: &[f64],
    textures: &[f64],
    normals: &[f64],
    corners: &[u32],
    sizes: &[u32],
    ones: &[f64],
    twos: &[f64],
) -> u32
    ensures { result ≡ early_number
        (mesh_of positions.now textures.now normals.now corners.now sizes.now)
        ones.now twos.now }
{
    let number = mesh::number(positions, textures, normals, corners, sizes);
    if number != 0 {
        return number;
    }
    if boundless_position(positions) {
        return 7;
    }
    if other_face(sizes) {
        return 15;
    }
    let n = positions.len() / POINT_WIDTH;
    if folded_or_idle(corners, n) {
        return 16;
    }
    if unoriented(corners, sizes, n) {
        return 10;
    }
    if unfit_list(ones) || unfit_list(twos) {
        return 17;
    }
    0
}

// 7: a coordinate is not finite, or its magnitude is above 2^60.
fn boundless_position(positions: &[f64]) -> bool
    ensures { result ≡ some boundless positions.now }
{
    positions.iter().any(|x| floating::is_boundless(*x))
}

// 15: a face isn't a triangle.
fn other_face(sizes: &[u32]) -> bool
    ensures { result ≡ some (λ k. not (eqb k least_ring)) sizes.now }
{
    some_other(sizes, LEAST_RING as u32)
}

// Whether some number of a list is another than x.
fn some_other(list: &[u32], x: u32) -> bool
    ensures { result ≡ some (λ k. not (eqb k x)) list.now }
{
    list.iter().any(|k| *k != x)
}

// 16: a face is folded or a position is in no face.
fn folded_or_idle(corners: &[u32], positions: usize) -> bool
    requires { Triangular corners.now positions }
    ensures { result ≡ (some folded (triangles corners.now) || not (all_used positions (triangles corners.now))) }
{
    any_folded(corners) || any_idle(corners, positions)
}

fn any_folded(corners: &[u32]) -> bool
    requires { length corners.now ≤ corner_numbers }
    ensures { result ≡ some folded (triangles corners.now) }
{
    for k in 0..corners.len() / TRIANGLE {
        if folding::degenerate_triangle(triangle_at(corners, k)) {
            return true;
        }
    }
    false
}

// Triangle k, by value.
fn triangle_at(corners: &[u32], k: usize) -> [[u32; WIDTH]; 3]
    requires { (width * least_ring * (k + 1) ≤ length corners.now) × (length corners.now ≤ corner_numbers) }
    ensures { result ≡ corner_at corners.now (least_ring * k) ∷ corner_at corners.now (least_ring * k + 1)
        ∷ corner_at corners.now (least_ring * k + 2) ∷ [] }
{
    let a = LEAST_RING * k;
    let x = mesh::corner_at(corners, a);
    let y = mesh::corner_at(corners, a + 1);
    let z = mesh::corner_at(corners, a + 2);
    [x, y, z]
}

// Whether some position is in no face: those that are get a mark, and one without it is looked for.
fn any_idle(corners: &[u32], positions: usize) -> bool
    requires { Triangular corners.now positions }
    ensures { result ≡ not (all_used positions (triangles corners.now)) }
{
    let mut used = [0u32; mesh::ENTRIES];
    idle_in(corners, &mut used[..positions])
}

fn idle_in(corners: &[u32], used: &mut [u32]) -> bool
    requires { Markable corners.now used.old }
    ensures { result ≡ not (all_used (length used.old) (triangles corners.now)) }
{
    mark_used(corners, used);
    some_other(used, USED)
}

fn mark_used(corners: &[u32], used: &mut [u32])
    requires { Markable corners.now used.old }
    ensures { Marked corners.now used.old used.new }
{
    for k in 0..corners.len() / WIDTH {
        used[corners[WIDTH * k] as usize] = USED;
    }
}

// 10: verdict not Oriented or Closed.
fn unoriented(corners: &[u32], sizes: &[u32], positions: usize) -> bool
    requires { Edged corners.now sizes.now positions }
    ensures { result ≡ not (oriented (verdict (edges_of (rings sizes.now corners.now)))) }
{
    !is_oriented(edges::verdict_of(corners, sizes, positions))
}

#[tactic(auto, unfolding(edges::specs::Answers::verdict_of))]
fn is_oriented(verdict: ShellCondition) -> bool
    ensures { result ≡ oriented (verdict_of verdict) }
{
    match verdict {
        ShellCondition::Irregular | ShellCondition::Regular => false,
        ShellCondition::Oriented | ShellCondition::Closed => true,
    }
}

// 17: a list of cosines isn't 64 long or holds a value not within -1 to 1.
fn unfit_list(cosines: &[f64]) -> bool
    ensures { result ≡ unfit_list cosines.now }
{
    cosines.len() != COSINES || any_without(cosines)
}

fn any_without(cosines: &[f64]) -> bool
    ensures { result ≡ some (λ c. not (within_one c)) cosines.now }
{
    cosines.iter().any(|c| !is_within_one(*c))
}

// What is no number lies nowhere.
fn is_within_one(c: f64) -> bool
    ensures { result ≡ within_one c }
{
    -1.0 <= c && c <= 1.0
}

// 17: a position has over 64 neighbours.
pub fn crowded(degrees: &[u32]) -> bool
    ensures { result ≡ some (ltb cosine_count) degrees.now }
{
    degrees.iter().any(|n| NEIGHBOURS < *n as usize)
}
