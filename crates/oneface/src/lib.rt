// One face: whether it is folded, and what is left of it, written behind what is written. A face is its part of the flat list of
// corners. One that is not folded is copied as it is; of a folded one the decision in crate folding says what becomes of it.
#![tactic(auto)]

ghost use Rattle.std.specs.Prelude.{◌≡◌, [], ◌∷◌, map, ◌+◌, ◌*◌, ◌<◌, ◌≤◌, length};
ghost use Rattle.mesh.specs.Limits.{width, ring_limit};
ghost use Rattle.mesh.specs.Mesh.{position, corners_in};
ghost use Rattle.grouping.specs.Push.{Placed};
ghost use Rattle.folding.specs.Folding.{folded, triangle_pieces, quadrangle_pieces, ring_pieces, pieces};
ghost use Rattle.oneface.specs.Working.{Corners, Face};

use folding::Fold;
use grouping::Filled;
use mesh::{RING, WIDTH};

// So long is a row for most faces. A row is filled with zeros before it is used, and one for the largest face would take longer to fill than
// most faces take to be looked at.
const SHORT: usize = 32;

// Whether a face of n corners is folded.
pub fn is_folded(face: &[u32], n: usize) -> bool
    requires { Corners face.now n }
    ensures { result ≡ folded (corners_in face.now) }
{
    match n {
        3 => folding::degenerate_triangle(corners_of(face)),
        4 => !matches!(
            folding::degenerate_quadrangle(corners_of(face)),
            Fold::Stays
        ),
        _ => folded_ring(face, n),
    }
}

// The pieces of a face of n corners.
pub fn face_pieces(face: &[u32], n: usize, out: &mut [u32], lens: &mut [u32], at: Filled) -> Filled
    requires { Face face.now n out.old lens.old at.corners at.faces }
    ensures { Placed (pieces (corners_in face.now))
        out.old out.new lens.old lens.new
        at.corners at.faces result.corners result.faces }
{
    match n {
        3 => triangle_pieces(face, out, lens, at),
        4 => quadrangle_pieces(face, out, lens, at),
        _ => ring_pieces(face, n, out, lens, at),
    }
}

// Whether a larger face of n corners is folded: by the positions of its corners, in a row that is no longer than it need be.
fn folded_ring(face: &[u32], n: usize) -> bool
    requires { Corners face.now n }
    ensures { result ≡ folded (corners_in face.now) }
{
    if n <= SHORT {
        folded_within::<SHORT>(face, n)
    } else {
        folded_within::<RING>(face, n)
    }
}

// The same, in a row of N places.
fn folded_within<const N: usize>(face: &[u32], n: usize) -> bool
    requires { Corners face.now n × (n ≤ N) × (N ≤ ring_limit) }
    ensures { result ≡ folded (corners_in face.now) }
{
    let mut positions = [0u32; N];
    let row = &mut positions[..n];
    put_positions(face, row);
    folding::first(row) < row.len()
}

// The corners of a face that has N of them, by value.
fn corners_of<const N: usize>(face: &[u32]) -> [[u32; WIDTH]; N]
    requires { (length face.now ≡ width * N) × (N ≤ ring_limit) }
    ensures { result ≡ corners_in face.now }
{
    let mut corners = [[0u32; WIDTH]; N];
    for (k, corner) in corners.iter_mut().enumerate() {
        *corner = mesh::corner_at(face, k);
    }
    corners
}

// The positions of a face's corners.
fn put_positions(face: &[u32], row: &mut [u32])
    requires { Corners face.now (length row.old) }
    ensures { row.new ≡ map position (corners_in face.now) }
{
    for (k, p) in row.iter_mut().enumerate() {
        *p = face[WIDTH * k];
    }
}

// A triangle, as it stands if it is not folded.
fn triangle_pieces(face: &[u32], out: &mut [u32], lens: &mut [u32], at: Filled) -> Filled
    requires { Face face.now 3 out.old lens.old at.corners at.faces }
    ensures { Placed (triangle_pieces (corners_in face.now))
        out.old out.new lens.old lens.new
        at.corners at.faces result.corners result.faces }
{
    if folding::degenerate_triangle(corners_of(face)) {
        return at;
    }
    grouping::put_face(face, out, lens, at)
}

// What is left of a quadrangle.
fn quadrangle_pieces(face: &[u32], out: &mut [u32], lens: &mut [u32], at: Filled) -> Filled
    requires { Face face.now 4 out.old lens.old at.corners at.faces }
    ensures { Placed (quadrangle_pieces (corners_in face.now))
        out.old out.new lens.old lens.new
        at.corners at.faces result.corners result.faces }
{
    let quad = corners_of(face);
    match folding::degenerate_quadrangle(quad) {
        Fold::Goes => at,
        Fold::WithoutQ1 => put_triangle(folding::without_q1(quad), out, lens, at),
        Fold::WithoutQ3 => put_triangle(folding::without_q3(quad), out, lens, at),
        Fold::Stays => grouping::put_face(face, out, lens, at),
    }
}

// The triangle that is left of a quadrangle, behind what is written.
fn put_triangle(tri: [[u32; WIDTH]; 3], out: &mut [u32], lens: &mut [u32], at: Filled) -> Filled
    requires { (width * (at.corners + 3) ≤ length out.old) × (at.faces < length lens.old) }
    ensures { Placed (tri ∷ [])
        out.old out.new lens.old lens.new
        at.corners at.faces result.corners result.faces }
{
    grouping::put_face(tri.as_flattened(), out, lens, at)
}

// The pieces of a larger face of n corners: itself where it is not folded.
fn ring_pieces(face: &[u32], n: usize, out: &mut [u32], lens: &mut [u32], at: Filled) -> Filled
    requires { Face face.now n out.old lens.old at.corners at.faces }
    ensures { Placed (ring_pieces (corners_in face.now))
        out.old out.new lens.old lens.new
        at.corners at.faces result.corners result.faces }
{
    if folded_ring(face, n) {
        return split_pieces(face, n, out, lens, at);
    }
    grouping::put_face(face, out, lens, at)
}

// The pieces of a larger face of n corners, split on one row of places; which corners they took is not told on.
fn split_pieces(face: &[u32], n: usize, out: &mut [u32], lens: &mut [u32], at: Filled) -> Filled
    requires { Face face.now n out.old lens.old at.corners at.faces }
    ensures { Placed (ring_pieces (corners_in face.now))
        out.old out.new lens.old lens.new
        at.corners at.faces result.corners result.faces }
{
    if n <= SHORT {
        split_within::<SHORT>(face, n, out, lens, at)
    } else {
        split_within::<RING>(face, n, out, lens, at)
    }
}

// The same, in rows of N places.
fn split_within<const N: usize>(
    face: &[u32],
    n: usize,
    out: &mut [u32],
    lens: &mut [u32],
    at: Filled,
) -> Filled
    requires { Face face.now n out.old lens.old at.corners at.faces × (n ≤ N) × (N ≤ ring_limit) }
    ensures { Placed (ring_pieces (corners_in face.now))
        out.old out.new lens.old lens.new
        at.corners at.faces result.corners result.faces }
{
    let mut row = [0u32; N];
    let mut took = [0u32; N];
    folding::split_into_nondegenerate(face, &mut row[..n], &mut took, out, lens, at)
}
