// The sheet of a panel file: from the file's bytes to the sheet's bytes.
//
// The file is opened and cleaned, by crate opening; what is found in the mesh that is left is written as lines, by crate finding. The reader
// checks the mesh, and what is made of an accepted mesh is one again: so nothing behind it checks once more. Where a step needs lists, one
// function makes them and another fills them. The definitions that a caller cites stand in specs/Sheet.antt.
#![tactic(auto)]

ghost use Rattle.std.specs.Prelude.{◌≤◌, [], length};
ghost use Rattle.lines.specs.Lines.{sheet_room};
ghost use Rattle.lines.specs.Working.{Sheeted};
ghost use Rattle.reading.specs.Reading.{reading_number, panel_mesh};
ghost use Rattle.sheet.specs.Sheet.{printed, Printed};
ghost use Rattle.sheet.specs.Working.{FaceRoom, Cleaned};

use panelfile::MeshRead;

// The most bytes that a file may have, and room for every sheet.
pub const FILE: usize = 65536;

pub const ROOM: usize = 65536;

// The number returned, and how many bytes the sheet has.
#[derive(Clone, Copy)]
pub struct Answer {
    pub number: u32,
    pub length: usize,
}

// Takes the bytes of a panel file and lends a list for the bytes of its sheet, which needs room for 65,536. Answers 0 and the sheet's
// length; or 9 where the list is too short, with length 0 and nothing written. A refused file has a sheet too: it says so.
pub fn sheet(file: &[u8], out: &mut [u8]) -> Answer
    ensures { Printed file.now out.old out.new result }
{
    if out.len() < ROOM {
        return Answer {
            number: 9,
            length: 0,
        };
    }
    if FILE < file.len() {
        let length = lines::put_refusal(1, out);
        return Answer {
            number: 0,
            length: length,
        };
    }
    let length = from_file(file, out);
    Answer {
        number: 0,
        length: length,
    }
}

// The file is opened and cleaned, and what is found in it, or its refusal, is written.
fn from_file(file: &[u8], out: &mut [u8]) -> usize
    requires { sheet_room ≤ length out.old }
    ensures { Sheeted
        (printed (reading_number [] file.now) (panel_mesh file.now)) out.old out.new result }
{
    let mut corners = [0u32; mesh::CORNER_NUMBERS];
    let mut sizes = [0u32; mesh::FACES];
    let left = left_of(file, &mut corners[..], &mut sizes[..]);
    let number = left.number;
    if number != 0 {
        return lines::put_refusal(number, out);
    }
    let c = mesh::WIDTH * left.corners;
    let f = left.faces;
    finding::put_found(
        left.positions,
        left.textures,
        left.normals,
        &corners[..c],
        &sizes[..f],
        out,
    )
}

// The file's number and, where that is 0, the mesh that is left of it: how many of everything there are, and its corners and sizes at the
// front of the lists. No line of the sheet needs a coordinate, so the lists for them are made here, and given up.
fn left_of(file: &[u8], corners: &mut [u32], sizes: &mut [u32]) -> MeshRead
    requires { FaceRoom corners.old sizes.old }
    ensures { Cleaned file.now result corners.new sizes.new }
{
    let mut positions = [0.0f64; mesh::POINT_NUMBERS];
    let mut textures = [0.0f64; mesh::TEXEL_NUMBERS];
    let mut normals = [0.0f64; mesh::POINT_NUMBERS];
    opening::open_clean(
        file,
        &mut positions[..],
        &mut textures[..],
        &mut normals[..],
        corners,
        sizes,
    )
}
