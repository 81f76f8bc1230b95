// The hem sheet of a file: from the program's bytes to the sheet's bytes (document 02, CR 13).
//
// The bytes are a count, so many bytes of panel file, and triples. The panel file is read, by crate drawing, and not cleaned; its hems are
// listed and written as lines, by crate hemtext. The reader checks the mesh, so that nothing behind it checks once more. Where a step needs
// lists, one function makes them and another fills them. The definitions that a caller cites stand in specs/HemFile.antt.
#![tactic(auto)]

ghost use Rattle.std.specs.Prelude.{◌≡◌, ◌≤◌, length};
ghost use Rattle.mesh.specs.Mesh.{rings};
ghost use Rattle.lines.specs.Working.{Sheeted};
ghost use Rattle.hemtext.specs.HemText.{hem_room};
ghost use Rattle.hemfile.specs.HemFile.{hem_sheet_of, HemsPrinted};
ghost use Rattle.hemfile.specs.Working.{mesh_sheet, panel_sheet, Printable, Placeable, FaceRoom, Read};

use reading::MeshRead;

// The most bytes that a file may have, and room for every hem sheet.
pub const FILE: usize = 65536;

pub const ROOM: usize = hemtext::ROOM;

// How many bytes the count has, and a triple.
const COUNT_BYTES: usize = 4;

const TRIPLE_BYTES: usize = mesh::POINT_WIDTH * triples::COORDINATE_BYTES;

// The number returned, and how many bytes the sheet has.
#[derive(Clone, Copy)]
pub struct Answer {
    pub number: u32,
    pub length: usize,
}

// Takes the bytes of a count, a panel file and triples, and lends a list for the bytes of the hem sheet, which needs room for 106,496.
// Answers 0 and the sheet's length; or 9 where the list is too short, with length 0 and nothing written. A refused file has a sheet too: it
// says so, by 1, 11, a number of the reader's, 18, 19 or 10.
pub fn hem_sheet(file: &[u8], out: &mut [u8]) -> Answer
    ensures { HemsPrinted file.now out.old out.new result }
{
    if out.len() < ROOM {
        return Answer {
            number: 9,
            length: 0,
        };
    }
    let length = put_file(file, out);
    Answer { number: 0, length }
}

// The sheet of a file, by how many bytes it has: too many, or under its count; or cut in two.
fn put_file(file: &[u8], out: &mut [u8]) -> usize
    requires { hem_room ≤ length out.old }
    ensures { Sheeted (hem_sheet_of file.now) out.old out.new result }
{
    if FILE < file.len() {
        return lines::put_refusal(1, out);
    }
    if file.len() < COUNT_BYTES {
        return lines::put_refusal(11, out);
    }
    let end = COUNT_BYTES + little::word(file, 0) as usize;
    if file.len() < end {
        return lines::put_refusal(11, out);
    }
    put_panel(&file[COUNT_BYTES..end], &file[end..], out)
}

// The sheet of a panel file and the bytes of triples. The reader's numbers come first.
fn put_panel(panel: &[u8], bytes: &[u8], out: &mut [u8]) -> usize
    requires { hem_room ≤ length out.old }
    ensures { Sheeted (panel_sheet panel.now bytes.now) out.old out.new result }
{
    let mut corners = [0u32; mesh::CORNER_NUMBERS];
    let mut sizes = [0u32; mesh::FACES];
    let read = read_faces(panel, &mut corners[..], &mut sizes[..]);
    let number = read.number;
    if number != 0 {
        return lines::put_refusal(number, out);
    }
    let c = mesh::WIDTH * read.corners;
    let f = read.faces;
    put_mesh(&corners[..c], &sizes[..f], read.positions, bytes, out)
}

// The panel file's number and, where that is 0, its mesh: how many of everything there are, and its corners and sizes at the front of the
// lists. No hem needs a coordinate of the panel file, so the lists for them are made here, and given up.
fn read_faces(panel: &[u8], corners: &mut [u32], sizes: &mut [u32]) -> MeshRead
    requires { FaceRoom corners.old sizes.old }
    ensures { Read panel.now result corners.new sizes.new }
{
    let mut positions = [0.0f64; mesh::POINT_NUMBERS];
    let mut textures = [0.0f64; mesh::TEXEL_NUMBERS];
    let mut normals = [0.0f64; mesh::POINT_NUMBERS];
    drawing::draw(
        panel,
        &mut positions[..],
        &mut textures[..],
        &mut normals[..],
        corners,
        sizes,
    )
}

// The sheet of an accepted mesh with so many positions, and the bytes of triples: 18 where there is not one whole triple for each position.
fn put_mesh(corners: &[u32], sizes: &[u32], positions: usize, bytes: &[u8], out: &mut [u8]) -> usize
    requires { Printable corners.now sizes.now positions out.old }
    ensures { Sheeted
        (mesh_sheet positions bytes.now (rings sizes.now corners.now)) out.old out.new result }
{
    if bytes.len() != TRIPLE_BYTES * positions {
        return lines::put_refusal(18, out);
    }
    let mut coordinates = [0i32; mesh::POINT_NUMBERS];
    let n = mesh::POINT_WIDTH * positions;
    put_placed(corners, sizes, positions, bytes, &mut coordinates[..n], out)
}

// The same with a whole triple for each position, and a row for the coordinates.
fn put_placed(
    corners: &[u32],
    sizes: &[u32],
    positions: usize,
    bytes: &[u8],
    coordinates: &mut [i32],
    out: &mut [u8],
) -> usize
    requires { Placeable corners.now sizes.now positions bytes.now coordinates.old out.old }
    ensures { Sheeted
        (mesh_sheet positions bytes.now (rings sizes.now corners.now)) out.old out.new result }
{
    triples::put_coordinates(bytes, coordinates);
    hemtext::put_sheet(corners, sizes, positions, coordinates, out)
}
