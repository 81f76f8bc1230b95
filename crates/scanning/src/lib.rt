// The sheet of a scan: from the bytes of a scanner's own file to the sheet's bytes, as crate sheet has it for a panel file.
//
// The scan is read, by crate scanfile, and cleaned where it stands, by crate opening; what is found in the mesh that is left is written as
// lines, by crate finding. The definitions that a caller cites stand in specs/Scanning.antt.
#![tactic(auto)]

ghost use Rattle.std.specs.Prelude.{◌≡◌, suc, ◌≤◌, [], length};
ghost use Rattle.mesh.specs.Mesh.{mesh_of};
ghost use Rattle.lines.specs.Lines.{sheet_room};
ghost use Rattle.lines.specs.Working.{Sheeted};
ghost use Rattle.scanned.specs.Scan.{scan_number, scan_mesh};
ghost use Rattle.opening.specs.Opening.{FullRoom};
ghost use Rattle.sheet.specs.Sheet.{printed};
ghost use Rattle.sheet.specs.Working.{FaceRoom, Left};
ghost use Rattle.scanning.specs.Scanning.{scan_sheet, ScanPrinted};
ghost use Rattle.scanning.specs.Promises.{scan_limit};
ghost use Rattle.scanning.specs.Working.{ScanOpened};

use reading::MeshRead;
use sheet::Answer;

// How many bytes the longest scan has that can be accepted: 1,365 triangles. Of one that has more, one byte more is enough to know its sheet.
pub const SCAN: usize = 68334;

// Room for every sheet.
pub const ROOM: usize = sheet::ROOM;

// So many bytes of a scan are enough to know its sheet: a program that reads from a file need read no more (proofs/Beginning.antt).
pub fn enough() -> usize
    ensures { result ≡ suc scan_limit }
{
    SCAN + 1
}

// Takes the bytes of a scan and lends a list for the bytes of its sheet, which needs room for 65,536. Answers 0 and the sheet's length; or
// 9 where the list is too short, with length 0 and nothing written. A refused scan has a sheet too: it says so.
pub fn scan_sheet(file: &[u8], out: &mut [u8]) -> Answer
    ensures { ScanPrinted file.now out.old out.new result }
{
    if out.len() < ROOM {
        return Answer {
            number: 9,
            length: 0,
        };
    }
    let length = from_scan(file, out);
    Answer {
        number: 0,
        length: length,
    }
}

// The scan is opened and cleaned, and what is found in it, or its refusal, is written.
fn from_scan(file: &[u8], out: &mut [u8]) -> usize
    requires { sheet_room ≤ length out.old }
    ensures { Sheeted (scan_sheet file.now) out.old out.new result }
{
    let mut corners = [0u32; mesh::CORNER_NUMBERS];
    let mut sizes = [0u32; mesh::FACES];
    let left = left_of(file, &mut corners[..], &mut sizes[..]);
    let number = left.number;
    if number != 0 {
        return lines::put_refusal(number, out);
    }
    let c = mesh::WIDTH * left.corners;
    let f = left.faces;
    finding::put_found(
        left.positions,
        left.textures,
        left.normals,
        &corners[..c],
        &sizes[..f],
        out,
    )
}

// The scan's number and, where that is 0, the mesh that is left of it: how many of everything there are, and its corners and sizes at the
// front of the lists. No line of the sheet needs a coordinate, so the lists for them are made here, and given up.
fn left_of(file: &[u8], corners: &mut [u32], sizes: &mut [u32]) -> MeshRead
    requires { FaceRoom corners.old sizes.old }
    ensures { Left (scan_number [] file.now) (scan_mesh file.now) result corners.new sizes.new }
{
    let mut positions = [0.0f64; mesh::POINT_NUMBERS];
    let mut textures = [0.0f64; mesh::TEXEL_NUMBERS];
    let mut normals = [0.0f64; mesh::POINT_NUMBERS];
    open_scan(
        file,
        &mut positions[..],
        &mut textures[..],
        &mut normals[..],
        corners,
        sizes,
    )
}

// The scan is read into the lists, and cleaned there.
fn open_scan(
    file: &[u8],
    positions: &mut [f64],
    textures: &mut [f64],
    normals: &mut [f64],
    corners: &mut [u32],
    sizes: &mut [u32],
) -> MeshRead
    requires { FullRoom (mesh_of positions.old textures.old normals.old corners.old sizes.old) }
    ensures { ScanOpened file.now
        (mesh_of positions.new textures.new normals.new corners.new sizes.new) result }
{
    let scan = scanfile::read_scan(file, positions, textures, normals, corners, sizes);
    if scan.number != 0 {
        return scan;
    }
    opening::clean(scan, positions, textures, normals, corners, sizes)
}
