// A panel file cleaned: bytes in, bytes or a number out.
//
// The file is opened and cleaned, by crate opening: it is read into a mesh, folded faces are removed, and what no face uses goes. The mesh
// that is left is written as a panel file. The definitions that a caller cites stand in specs/Cleaning.antt.
#![tactic(auto)]

ghost use Rattle.std.specs.Prelude.{◌≡◌, [], ◌≤◌, length};
ghost use Rattle.mesh.specs.Mesh.{mesh_of};
ghost use Rattle.reading.specs.Reading.{reading_number};
ghost use Rattle.written.specs.Pieces.{file_limit};
ghost use Rattle.cleanfile.specs.Cleaning.{mesh_left, PanelCleaned};
ghost use Rattle.cleanfile.specs.Working.{FileRoom, refused_by, Answered};

// The number returned, and how many bytes the cleaned file has.
#[derive(Clone, Copy)]
pub struct Cleaned {
    pub number: u32,
    pub length: usize,
}

// Cleans a panel file into a lent buffer.
//
// Lends: room for the largest file that a mesh can make, saving::FILE bytes.
// Numbers: 9; then 1 where the given file is longer than that; then what the reader answers for the file. A refusal comes with length 0,
// and nothing is written.
pub fn clean(file: &[u8], out: &mut [u8]) -> Cleaned
    ensures { PanelCleaned file.now out.old out.new result }
{
    if out.len() < saving::FILE {
        return refused(9);
    }
    if saving::FILE < file.len() {
        return refused(1);
    }
    from_file(file, out)
}

// A refusal: the length beside it is 0.
fn refused(number: u32) -> Cleaned
    ensures { result ≡ refused_by number }
{
    Cleaned { number, length: 0 }
}

// The file: lists for the mesh that is left of it.
fn from_file(file: &[u8], out: &mut [u8]) -> Cleaned
    requires { file_limit ≤ length out.old }
    ensures { Answered (reading_number [] file.now) (mesh_left file.now) out.old out.new result }
{
    let mut positions = [0.0f64; mesh::POINT_NUMBERS];
    let mut textures = [0.0f64; mesh::TEXEL_NUMBERS];
    let mut normals = [0.0f64; mesh::POINT_NUMBERS];
    let mut corners = [0u32; mesh::CORNER_NUMBERS];
    let mut sizes = [0u32; mesh::FACES];
    clean_in(
        file,
        &mut positions[..],
        &mut textures[..],
        &mut normals[..],
        &mut corners[..],
        &mut sizes[..],
        out,
    )
}

// The file is opened and cleaned, and the file of what is left is written.
fn clean_in(
    file: &[u8],
    positions: &mut [f64],
    textures: &mut [f64],
    normals: &mut [f64],
    corners: &mut [u32],
    sizes: &mut [u32],
    out: &mut [u8],
) -> Cleaned
    requires { FileRoom (mesh_of positions.old textures.old normals.old corners.old sizes.old) out.old }
    ensures { Answered (reading_number [] file.now) (mesh_left file.now) out.old out.new result }
{
    let left = opening::open_clean(file, positions, textures, normals, corners, sizes);
    let number = left.number;
    if number != 0 {
        return refused(number);
    }
    let p = mesh::POINT_WIDTH * left.positions;
    let t = mesh::TEXEL_WIDTH * left.textures;
    let n = mesh::POINT_WIDTH * left.normals;
    let c = mesh::WIDTH * left.corners;
    let f = left.faces;
    let length = saving::put_mesh(
        &positions[..p],
        &textures[..t],
        &normals[..n],
        &corners[..c],
        &sizes[..f],
        out,
    );
    Cleaned { number: 0, length }
}
