// What is found in a mesh that is accepted, by its corners and sizes and by how many positions, texture points and normals it has, written
// as the lines of the sheet: its verdict, its panels, its hems.
//
// Nothing here checks the mesh again: it is asked for in `requires`. The definitions that a caller cites stand in specs/Found.antt.
#![tactic(auto)]

ghost use Rattle.std.specs.Prelude.{length};
ghost use Rattle.mesh.specs.Mesh.{rings};
ghost use Rattle.lines.specs.Lines.{sheet_text};
ghost use Rattle.lines.specs.Working.{Sheeted};
ghost use Rattle.finding.specs.Found.{found_of};
ghost use Rattle.finding.specs.Working.{Findable, WireRoom};

use lines::Findings;

// Writes what is found to the front of `out`, and answers how many bytes that is. Lists for the panels and the wires are made here.
pub fn put_found(
    positions: usize,
    textures: usize,
    normals: usize,
    corners: &[u32],
    sizes: &[u32],
    out: &mut [u8],
) -> usize
    requires { Findable positions textures normals corners.now sizes.now out.old }
    ensures { Sheeted
        (sheet_text (found_of positions textures normals (length sizes.now) (rings sizes.now corners.now)))
        out.old out.new result }
{
    let mut flat = [0u32; mesh::CORNERS];
    let mut lengths = [0u32; mesh::CORNERS];
    found_in(
        positions,
        textures,
        normals,
        corners,
        sizes,
        &mut flat[..],
        &mut lengths[..],
        out,
    )
}

// Panels are counted; the verdict is found, with the house wires; all of it is written. The panels' lists serve the wires.
fn found_in(
    positions: usize,
    textures: usize,
    normals: usize,
    corners: &[u32],
    sizes: &[u32],
    flat: &mut [u32],
    lengths: &mut [u32],
    out: &mut [u8],
) -> usize
    requires { WireRoom positions textures normals corners.now sizes.now flat.old lengths.old out.old }
    ensures { Sheeted
        (sheet_text (found_of positions textures normals (length sizes.now) (rings sizes.now corners.now)))
        out.old out.new result }
{
    let parts = panels::components_of(corners, sizes, false, flat, lengths);
    let house = house::house_of(corners, sizes, positions, flat, lengths);
    let verdict = house.verdict;
    let wires = house.wires;
    let f = wires.flat;
    let w = wires.wires;
    let found = Findings {
        positions: positions as u32,
        textures: textures as u32,
        normals: normals as u32,
        faces: sizes.len() as u32,
        verdict: verdict,
        panels: parts.panels as u32,
        number: wires.number,
    };
    lines::put_sheet(found, &flat[..f], &lengths[..w], out)
}
