// The uses of edge keys, as columns: for each use, in the order of the faces and of their edges, one number. A key has four
// digits, and a fifth column has the number of the use's face.
#![tactic(auto)]

ghost use Rattle.std.specs.Prelude.{◌≡◌, cond, map, ℕ, ◌+◌, ◌*◌, ◌/◌, ◌%◌, ◌<◌, ◌≤◌, length};
ghost use Rattle.std.proofs.lemmas.List.Edits.{sets};
ghost use Rattle.mesh.specs.Mesh.{rings, corners_in};
ghost use Rattle.columns.specs.Keys.{key_of};
ghost use Rattle.columns.specs.Columns.{normal_digit, chosen, entry_of, edge_at, face_uses, column, AtCorner, FaceRoom, ColumnRoom, DigitRoom, Digits};

// The digit of a missing normal, and that of the first one: a normal's digit is one more than its index.
const NO_NORMAL: u32 = 0;

const FIRST_NORMAL: u32 = 1;

pub const LOWER: u32 = 0;

pub const HIGHER: u32 = 1;

pub const LOWER_NORMAL: u32 = 2;

pub const HIGHER_NORMAL: u32 = 3;

pub const FACE: u32 = 4;

// The four digits of the keys of all uses: lower and higher position, and n and m, the normals there.
pub fn put_digits(
    corners: &[u32],
    sizes: &[u32],
    normals: bool,
    lower: &mut [u32],
    higher: &mut [u32],
    n: &mut [u32],
    m: &mut [u32],
)
    requires { DigitRoom corners.now sizes.now lower.old higher.old n.old m.old }
    ensures { Digits normals (rings sizes.now corners.now) lower.new higher.new n.new m.new }
{
    put_column(corners, sizes, normals, LOWER, lower);
    put_column(corners, sizes, normals, HIGHER, higher);
    put_column(corners, sizes, normals, LOWER_NORMAL, n);
    put_column(corners, sizes, normals, HIGHER_NORMAL, m);
}

// Column `which` of all uses.
pub fn put_column(corners: &[u32], sizes: &[u32], normals: bool, which: u32, out: &mut [u32])
    requires { ColumnRoom corners.now sizes.now out.old }
    ensures { out.new ≡ column normals which (rings sizes.now corners.now) }
{
    let mut at: usize = 0;
    for k in 0..sizes.len() {
        let part = mesh::face_at(corners, sizes, k, at);
        put_face(part, k as u32, normals, which, out, at);
        at += part.len() / mesh::WIDTH;
    }
}

// Column `which` of the uses of one face, from place `at` on.
fn put_face(part: &[u32], face: u32, normals: bool, which: u32, out: &mut [u32], at: usize)
    requires { FaceRoom part.now out.old at }
    ensures { out.new ≡ sets out.old at (map (entry_of which) (face_uses normals face (corners_in part.now))) }
{
    let n = part.len() / mesh::WIDTH;
    for j in 0..n {
        out[at + j] = edge_entry(part, j, face, normals, which);
    }
}

// Column `which` of the use of the edge from corner `j` to the one behind it: lower position first; with equal positions the key
// keeps the second corner first.
fn edge_entry(part: &[u32], j: usize, face: u32, normals: bool, which: u32) -> u32
    requires { AtCorner part.now j }
    ensures { result ≡ entry_of which (face, key_of normals (edge_at part.now j)) }
{
    let a = mesh::WIDTH * j;
    let b = mesh::WIDTH * lists::next_of(j, part.len() / mesh::WIDTH);
    let p = part[a];
    let q = part[b];
    let n = normal_digit(part[a + 2], normals);
    let m = normal_digit(part[b + 2], normals);
    if p < q {
        choose(which, p, q, n, m, face)
    } else {
        choose(which, q, p, m, n, face)
    }
}

// A normal index as a digit; without the normals setting it is not looked at, and all count as the first.
#[tactic(auto, unfolding(crate::specs::Columns::normal_digit))]
fn normal_digit(normal: u32, normals: bool) -> u32
    ensures { result ≡ normal_digit (cond normals normal 0) }
{
    if !normals {
        return FIRST_NORMAL;
    }
    if normal == mesh::MISSING {
        return NO_NORMAL;
    }
    normal + 1
}

// The number for column `which`.
#[tactic(auto, unfolding(crate::specs::Columns::chosen))]
fn choose(which: u32, lower: u32, higher: u32, n: u32, m: u32, face: u32) -> u32
    ensures { result ≡ chosen which lower higher n m face }
{
    match which {
        LOWER => lower,
        HIGHER => higher,
        LOWER_NORMAL => n,
        HIGHER_NORMAL => m,
        _ => face,
    }
}
