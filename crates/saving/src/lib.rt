// A mesh as a panel file: positions, texture points, normals, faces in their order, end.
//
// What is written is said in crate written, record by record (specs/Pieces.antt), and what the call answers (specs/Answer.antt). There it is
// proved that the reader gives the same mesh back.
#![tactic(auto)]

mod bytes;

ghost use Rattle.std.specs.Prelude.{◌≡◌};
ghost use Rattle.mesh.specs.Mesh.{mesh_of};
ghost use Rattle.mesh.specs.Table.{mesh_number};
ghost use Rattle.floating.specs.Limits.{all_finite};
ghost use Rattle.written.specs.Pieces.{file_of, file_length};
ghost use Rattle.written.specs.Answer.{saving_number, PanelWritten, Ready};
ghost use Rattle.saving.specs.Working.{Stored};

pub use written::Saved;

// How long the largest file is that a mesh can make.
pub const FILE: usize = 76 * mesh::ENTRIES + 6 * mesh::FACES + 4 * mesh::CORNER_NUMBERS + 4;

// Writes a mesh as a panel file into a lent buffer.
//
// Lends: room for the whole file, which never has more than FILE bytes.
// Numbers: 1 to 5 as the mesh earns; then 14 where a coordinate is not finite, in an entry that no corner uses too; then 9 where the buffer
// is shorter than the whole file. A refusal comes with length 0, and nothing is written.
pub fn write_panel(
    positions: &[f64],
    textures: &[f64],
    normals: &[f64],
    corners: &[u32],
    sizes: &[u32],
    out: &mut [u8],
) -> Saved
    ensures { PanelWritten
        (mesh_of positions.now textures.now normals.now corners.now sizes.now)
        out.old out.new result }
{
    let number = number(positions, textures, normals, corners, sizes, out.len());
    if number != 0 {
        return Saved { number, length: 0 };
    }
    let length = put_mesh(positions, textures, normals, corners, sizes, out);
    Saved { number: 0, length }
}

// The number of the call, with room for so many bytes.
fn number(
    positions: &[f64],
    textures: &[f64],
    normals: &[f64],
    corners: &[u32],
    sizes: &[u32],
    room: usize,
) -> u32
    ensures { result ≡ saving_number
        (mesh_of positions.now textures.now normals.now corners.now sizes.now)
        room }
{
    let number = mesh::number(positions, textures, normals, corners, sizes);
    if number != 0 {
        return number;
    }
    if !are_finite(positions, textures, normals) {
        return 14;
    }
    if room < file_length(positions, textures, normals, corners, sizes) {
        return 9;
    }
    0
}

// Every coordinate is finite.
#[tactic(auto, unfolding(floating::specs::Limits::all_finite))]
fn are_finite(positions: &[f64], textures: &[f64], normals: &[f64]) -> bool
    ensures { result ≡ all_finite positions.now textures.now normals.now }
{
    floating::are_finite(positions)
        && floating::are_finite(textures)
        && floating::are_finite(normals)
}

// How long the whole file of an accepted mesh is.
fn file_length(
    positions: &[f64],
    textures: &[f64],
    normals: &[f64],
    corners: &[u32],
    sizes: &[u32],
) -> usize
    requires { mesh_number (mesh_of positions.now textures.now normals.now corners.now sizes.now) ≡ 0 }
    ensures { result ≡ file_length
        (mesh_of positions.now textures.now normals.now corners.now sizes.now) }
{
    let p = 28 * (positions.len() / 3);
    let t = 20 * (textures.len() / 2);
    let n = 28 * (normals.len() / 3);
    let f = bytes::face_lengths(corners, sizes);
    p + t + n + f + 4
}

// The file of an accepted mesh with finite coordinates, where there is room for it. Answers how long it is.
pub fn put_mesh(
    positions: &[f64],
    textures: &[f64],
    normals: &[f64],
    corners: &[u32],
    sizes: &[u32],
    out: &mut [u8],
) -> usize
    requires { Ready (mesh_of positions.now textures.now normals.now corners.now sizes.now) out.old }
    ensures { Stored
        (file_of (mesh_of positions.now textures.now normals.now corners.now sizes.now))
        out.old out.new 0 result }
{
    let a = bytes::put_entries::<{ mesh::POINT_WIDTH }>(positions, 1, out, 0);
    let b = bytes::put_entries::<{ mesh::TEXEL_WIDTH }>(textures, 2, out, a);
    let c = bytes::put_entries::<{ mesh::POINT_WIDTH }>(normals, 3, out, b);
    let d = bytes::put_faces(corners, sizes, out, c);
    bytes::put_header(0, 0, out, d)
}
