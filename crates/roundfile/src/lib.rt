// A panel file rounded: bytes in, bytes or a number out.
//
// The file is opened and cleaned, by crate opening; the mesh that is left is smoothed once by Loop's method; and the result is written as a
// panel file. Where a step needs lists, one function makes them and `.._in` fills them. The definitions that a caller cites stand in
// specs/Rounding.antt.
#![tactic(auto)]

ghost use Rattle.std.specs.Prelude.{◌≡◌, ◌≤◌, length};
ghost use Rattle.mesh.specs.Mesh.{mesh_of};
ghost use Rattle.written.specs.Pieces.{file_limit};
ghost use Rattle.smoothed.specs.Refusals.{result_of, lists};
ghost use Rattle.roundfile.specs.Rounding.{mesh_rounded, smoothed_number, opened_number, PanelRounded};
ghost use Rattle.roundfile.specs.Working.{FileRoom, SmoothRoom, refused_by, Answered};

// The number returned, and how many bytes the rounded file has.
#[derive(Clone, Copy)]
pub struct Rounded {
    pub number: u32,
    pub length: usize,
}

// Rounds a panel file into a lent buffer. Takes the cosines of pi/n and of 2·pi/n, n from 1 to 64.
//
// Lends: room for the largest file that a mesh can make, saving::FILE bytes.
// Numbers: 9; then 1 where the given file is longer than that; then what the reader answers for the file; then what smoothing answers for the
// mesh that is left of it; then 14 where a coordinate of the result is not finite. A refusal comes with length 0, and nothing is written.
pub fn round(file: &[u8], ones: &[f64], twos: &[f64], out: &mut [u8]) -> Rounded
    ensures { PanelRounded file.now ones.now twos.now out.old out.new result }
{
    if out.len() < saving::FILE {
        return refused(9);
    }
    if saving::FILE < file.len() {
        return refused(1);
    }
    from_file(file, ones, twos, out)
}

// A refusal: the length beside it is 0.
fn refused(number: u32) -> Rounded
    ensures { result ≡ refused_by number }
{
    Rounded { number, length: 0 }
}

// The file: lists for the mesh that is left of it.
fn from_file(file: &[u8], ones: &[f64], twos: &[f64], out: &mut [u8]) -> Rounded
    requires { file_limit ≤ length out.old }
    ensures { Answered
        (opened_number file.now ones.now twos.now)
        (mesh_rounded file.now ones.now twos.now)
        out.old out.new result }
{
    let mut positions = [0.0f64; mesh::POINT_NUMBERS];
    let mut textures = [0.0f64; mesh::TEXEL_NUMBERS];
    let mut normals = [0.0f64; mesh::POINT_NUMBERS];
    let mut corners = [0u32; mesh::CORNER_NUMBERS];
    let mut sizes = [0u32; mesh::FACES];
    open_in(
        file,
        ones,
        twos,
        &mut positions[..],
        &mut textures[..],
        &mut normals[..],
        &mut corners[..],
        &mut sizes[..],
        out,
    )
}

// The file is opened and cleaned.
fn open_in(
    file: &[u8],
    ones: &[f64],
    twos: &[f64],
    positions: &mut [f64],
    textures: &mut [f64],
    normals: &mut [f64],
    corners: &mut [u32],
    sizes: &mut [u32],
    out: &mut [u8],
) -> Rounded
    requires { FileRoom (mesh_of positions.old textures.old normals.old corners.old sizes.old) out.old }
    ensures { Answered
        (opened_number file.now ones.now twos.now)
        (mesh_rounded file.now ones.now twos.now)
        out.old out.new result }
{
    let left = opening::open_clean(file, positions, textures, normals, corners, sizes);
    let number = left.number;
    if number != 0 {
        return refused(number);
    }
    let p = mesh::POINT_WIDTH * left.positions;
    let t = mesh::TEXEL_WIDTH * left.textures;
    let n = mesh::POINT_WIDTH * left.normals;
    let c = mesh::WIDTH * left.corners;
    let f = left.faces;
    from_mesh(
        &positions[..p],
        &textures[..t],
        &normals[..n],
        &corners[..c],
        &sizes[..f],
        ones,
        twos,
        out,
    )
}

// The mesh that is left: lists for what smoothing gives.
fn from_mesh(
    positions: &[f64],
    textures: &[f64],
    normals: &[f64],
    corners: &[u32],
    sizes: &[u32],
    ones: &[f64],
    twos: &[f64],
    out: &mut [u8],
) -> Rounded
    requires { file_limit ≤ length out.old }
    ensures { Answered
        (smoothed_number
        (mesh_of positions.now textures.now normals.now corners.now sizes.now)
        ones.now twos.now)
        (result_of
        (mesh_of positions.now textures.now normals.now corners.now sizes.now)
        ones.now twos.now)
        out.old out.new result }
{
    let mut newpositions = [0.0f64; mesh::POINT_NUMBERS];
    let mut newcorners = [0u32; mesh::CORNER_NUMBERS];
    let mut newsizes = [0u32; mesh::FACES];
    smooth_in(
        positions,
        textures,
        normals,
        corners,
        sizes,
        ones,
        twos,
        &mut newpositions[..],
        &mut newcorners[..],
        &mut newsizes[..],
        out,
    )
}

// It is smoothed, and the file of the result is written, where that can be.
fn smooth_in(
    positions: &[f64],
    textures: &[f64],
    normals: &[f64],
    corners: &[u32],
    sizes: &[u32],
    ones: &[f64],
    twos: &[f64],
    newpositions: &mut [f64],
    newcorners: &mut [u32],
    newsizes: &mut [u32],
    out: &mut [u8],
) -> Rounded
    requires { SmoothRoom (lists newpositions.old newcorners.old newsizes.old) out.old }
    ensures { Answered
        (smoothed_number
        (mesh_of positions.now textures.now normals.now corners.now sizes.now)
        ones.now twos.now)
        (result_of
        (mesh_of positions.now textures.now normals.now corners.now sizes.now)
        ones.now twos.now)
        out.old out.new result }
{
    let smooth = smoothing::loop_subdivision(
        positions,
        textures,
        normals,
        corners,
        sizes,
        ones,
        twos,
        newpositions,
        newcorners,
        newsizes,
    );
    let number = smooth.number;
    if number != 0 {
        return refused(number);
    }
    let p = mesh::POINT_WIDTH * smooth.positions;
    let c = mesh::WIDTH * smooth.corners;
    let f = smooth.faces;
    let saved = saving::write_panel(
        &newpositions[..p],
        textures,
        normals,
        &newcorners[..c],
        &newsizes[..f],
        out,
    );
    Rounded {
        number: saved.number,
        length: saved.length,
    }
}
