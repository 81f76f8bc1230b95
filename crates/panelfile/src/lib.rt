// The panel file: its records, and the reader that turns its bytes into a mesh or into a number of the table.
//
// A file is records, each a two-byte length, a two-byte kind and a body, little-endian, up to an end record. The reader takes one
// record after the other into lists of its own, so that a refused file writes nothing; then it looks at what follows the end record and at
// the indices, groups the faces as `push` does, and copies. The rules stand in crate reading, and its steps in crate drawing.
#![tactic(auto)]

ghost use Rattle.std.specs.Prelude.{◌≡◌};
ghost use Rattle.mesh.specs.Mesh.{mesh_of};
ghost use Rattle.reading.specs.Answer.{PanelRead};

pub use reading::MeshRead;

// Reads a panel file into five lent lists.
//
// Lends: room at the full limits, 6,144 numbers for positions, 4,096 for texture points, 6,144 for normals, 12,288 for corners
// and 1,365 for sizes.
// Numbers: 9; then record by record 11 header cut, 12 kind, 12 length, 11 body cut, 12 n unlike m, 3 n over the limit of its kind, 14 a
// coordinate that is not finite, 1 limit; then 13; then 5. A refused file writes nothing.
pub fn read_panel(
    file: &[u8],
    positions: &mut [f64],
    textures: &mut [f64],
    normals: &mut [f64],
    corners: &mut [u32],
    sizes: &mut [u32],
) -> MeshRead
    ensures { PanelRead file.now
        (mesh_of positions.old textures.old normals.old corners.old sizes.old)
        (mesh_of positions.new textures.new normals.new corners.new sizes.new)
        result }
{
    if drawing::is_short(
        positions.len(),
        textures.len(),
        normals.len(),
        corners.len(),
        sizes.len(),
    ) {
        return drawing::refused(9);
    }
    let mut p = [0.0f64; mesh::POINT_NUMBERS];
    let mut t = [0.0f64; mesh::TEXEL_NUMBERS];
    let mut n = [0.0f64; mesh::POINT_NUMBERS];
    let mut c = [0u32; mesh::CORNER_NUMBERS];
    let mut s = [0u32; mesh::FACES];
    let x = drawing::read_records(file, &mut p, &mut t, &mut n, &mut c, &mut s);
    let number = drawing::number_at_end(file, x, &p, &t, &n, &c, &s);
    if number != 0 {
        return drawing::refused(number);
    }
    drawing::hand_over(
        file, x, &p, &t, &n, &c, &s, positions, textures, normals, corners, sizes,
    )
}
