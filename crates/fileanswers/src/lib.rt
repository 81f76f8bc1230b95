// What a call on files answers, taken apart for a program in C as crate answers does it for the calls on a mesh: the reader, the writer,
// the sheet, the cleaning of a file, the hem sheet.
#![tactic(auto)]

ghost use Rattle.std.specs.Prelude.{◌≡◌};
ghost use Rattle.fileanswers.specs.Answers as want;

use reading::MeshRead;
use written::Saved;

// The reader: positions, texture points, normals, corners and faces.
pub fn read(
    drawn: MeshRead,
    positions: &mut usize,
    textures: &mut usize,
    normals: &mut usize,
    corners: &mut usize,
    faces: &mut usize,
) -> u32
    ensures { want.read_by result positions.new textures.new normals.new corners.new faces.new ≡ drawn }
{
    *positions = drawn.positions;
    *textures = drawn.textures;
    *normals = drawn.normals;
    *corners = drawn.corners;
    *faces = drawn.faces;
    drawn.number
}

// The writer: the file's length.
pub fn saved(written: Saved, length: &mut usize) -> u32
    ensures { want.saved_by result length.new ≡ written }
{
    *length = written.length;
    written.number
}

// The sheet: its length.
pub fn printed(text: sheet::Answer, length: &mut usize) -> u32
    ensures { want.printed_by result length.new ≡ text }
{
    *length = text.length;
    text.number
}

// The cleaning of a file: the cleaned file's length.
pub fn cleaned(clean: cleanfile::Cleaned, length: &mut usize) -> u32
    ensures { want.cleaned_by result length.new ≡ clean }
{
    *length = clean.length;
    clean.number
}

// The hem sheet: its length.
pub fn hems_printed(hems: hemfile::Answer, length: &mut usize) -> u32
    ensures { want.hems_printed_by result length.new ≡ hems }
{
    *length = hems.length;
    hems.number
}
