// What a call answers, taken apart for a program in C: the number is returned, and each count is written to the place that is lent for it.
//
// One function for each answer of a call on a mesh; crate fileanswers has those of files and of the sheet. The C interface (crate
// barleyhinge) hands it what the call answered. What a caller cites stands in specs/Answers.antt.
#![tactic(auto)]

ghost use Rattle.std.specs.Prelude.{◌≡◌};
ghost use Rattle.mesh.specs.Mesh.{mesh_of};
ghost use Rattle.edges.specs.Answers.{verdict_of};
ghost use Rattle.faces.specs.Faces.{pushed_of};
ghost use Rattle.unused.specs.Compaction.{compacted_of};
ghost use Rattle.removal.specs.Folded.{removed_of};
ghost use Rattle.answers.specs.Answers as want;

use edges::{HemEdges, ShellCondition};
use grouping::Filled;
use hemlist::Listed;
use merging::Merged;
use mesh::{Entries, Refusal};
use smoothing::Smoothed;
use tracing::Wires;

// The part of a face: where it starts in the list of corners, and how many numbers it is. An empty part starts at 0.
pub fn part(
    positions: &[f64],
    textures: &[f64],
    normals: &[f64],
    corners: &[u32],
    sizes: &[u32],
    k: usize,
    start: &mut usize,
    len: &mut usize,
)
    ensures { want.PartAnswer
        (mesh_of positions.now textures.now normals.now corners.now sizes.now)
        k start.new len.new }
{
    let part = mesh::face(positions, textures, normals, corners, sizes, k);
    let n = part.len();
    *start = 0;
    *len = n;
    if n != 0 {
        *start = mesh::WIDTH * mesh::offset(sizes, k);
    }
}

// What `pushed` and `removed` have in common: corners and faces.
pub fn filled(answer: Result<Filled, Refusal>, corners: &mut usize, faces: &mut usize) -> u32
    ensures pushed { want.pushed_by result corners.new faces.new ≡ pushed_of answer }
    ensures removed { want.removed_by result corners.new faces.new ≡ removed_of answer }
{
    match answer {
        Ok(filled) => {
            *corners = filled.corners;
            *faces = filled.faces;
            0
        }
        Err(refusal) => {
            *corners = 0;
            *faces = 0;
            refusal.number()
        }
    }
}

// Faces that are grouped: corners and faces.
pub fn pushed(grouped: Result<Filled, Refusal>, corners: &mut usize, faces: &mut usize) -> u32
    ensures { want.pushed_by result corners.new faces.new ≡ pushed_of grouped }
{
    filled(grouped, corners, faces)
}

// Compaction: positions, texture points and normals.
pub fn compacted(
    made: Result<Entries, Refusal>,
    positions: &mut usize,
    textures: &mut usize,
    normals: &mut usize,
) -> u32
    ensures { want.compacted_by result positions.new textures.new normals.new ≡ compacted_of made }
{
    match made {
        Ok(kept) => {
            *positions = kept.positions;
            *textures = kept.textures;
            *normals = kept.normals;
            0
        }
        Err(refused) => {
            *positions = 0;
            *textures = 0;
            *normals = 0;
            refused.number()
        }
    }
}

// Removal of folded faces: corners and faces.
pub fn removed(left: Result<Filled, Refusal>, corners: &mut usize, faces: &mut usize) -> u32
    ensures { want.removed_by result corners.new faces.new ≡ removed_of left }
{
    filled(left, corners, faces)
}

// Merging: the pairs compared among positions, texture points and normals.
pub fn merged(
    pairs: Merged,
    positions: &mut usize,
    textures: &mut usize,
    normals: &mut usize,
) -> u32
    ensures { want.merged_by result positions.new textures.new normals.new ≡ pairs }
{
    *positions = pairs.positions;
    *textures = pairs.textures;
    *normals = pairs.normals;
    pairs.number
}

// Smoothing: positions, corners and faces.
pub fn smoothed(
    rounded: Smoothed,
    positions: &mut usize,
    corners: &mut usize,
    faces: &mut usize,
) -> u32
    ensures { want.smoothed_by result positions.new corners.new faces.new ≡ rounded }
{
    *positions = rounded.positions;
    *corners = rounded.corners;
    *faces = rounded.faces;
    rounded.number
}

// A verdict, as a number.
pub fn verdict_number(condition: ShellCondition) -> u32
    ensures { result ≡ want.verdict_number (verdict_of condition) }
{
    match condition {
        ShellCondition::Irregular => 0,
        ShellCondition::Regular => 1,
        ShellCondition::Oriented => 2,
        ShellCondition::Closed => 3,
    }
}

// Hem edges: how many.
pub fn hemmed(hems: HemEdges, count: &mut usize) -> u32
    ensures { want.hemmed_by result count.new ≡ hems }
{
    *count = hems.count;
    hems.number
}

// Wires of either kind: the positions of all, and the wires.
pub fn wired(traced: Wires, flat: &mut usize, wires: &mut usize) -> u32
    ensures { want.wired_by result flat.new wires.new ≡ traced }
{
    *flat = traced.flat;
    *wires = traced.wires;
    traced.number
}

// Panels: the faces of all, and the panels.
pub fn panelled(found: panels::Answer, faces: &mut usize, panels: &mut usize) -> u32
    ensures { want.panelled_by result faces.new panels.new ≡ found }
{
    *faces = found.faces;
    *panels = found.panels;
    found.number
}

// The list of hems: how many.
pub fn listed(list: Listed, hems: &mut usize) -> u32
    ensures { want.listed_by result hems.new ≡ list }
{
    *hems = list.hems;
    list.number
}
