// A panel file opened and cleaned: bytes in, the mesh that is left of it out, in lists that the caller lends.
//
// The file is drawn into the lent lists. Folded faces are removed there, by way of lists for their pieces, and what no face uses goes within
// the list that it stands in; what is left stands at the front of the lent lists. So there is never more beside the caller's mesh than its
// faces. Where a step needs lists, one function makes them and `.._in` fills them. The definitions that a caller cites stand in
// specs/Opening.antt.
#![tactic(auto)]

ghost use Rattle.mesh.specs.Mesh.{mesh_of};
ghost use Rattle.unused.specs.Compaction.{compacted};
ghost use Rattle.cleaning.specs.Cleaning.{cleaned};
ghost use Rattle.opening.specs.Opening.{FullRoom, front_of, Standing, Kept, Opened};
ghost use Rattle.opening.specs.Working.{unfolded_front, FaceRoom, Unfolded};

use mesh::{POINT_WIDTH, TEXEL_WIDTH, WIDTH};
use reading::MeshRead;

// Takes the bytes of a panel file and lends five lists at the full limits. Answers 0 and the counts of the mesh that is left of the file,
// which then stands at the front of the lists; or what the reader answers for the file, with counts of 0: what the lists hold then is not
// promised.
pub fn open_clean(
    file: &[u8],
    positions: &mut [f64],
    textures: &mut [f64],
    normals: &mut [f64],
    corners: &mut [u32],
    sizes: &mut [u32],
) -> MeshRead
    requires { FullRoom (mesh_of positions.old textures.old normals.old corners.old sizes.old) }
    ensures { Opened file.now
        (mesh_of positions.new textures.new normals.new corners.new sizes.new) result }
{
    let panel = drawing::draw(file, positions, textures, normals, corners, sizes);
    if panel.number != 0 {
        return panel;
    }
    clean(panel, positions, textures, normals, corners, sizes)
}

// The mesh at the front of five lists at the full limits, by its counts, is cleaned there: folded faces are removed, and what no face uses
// goes. Whoever has drawn a mesh into such lists goes on from here. Lists for what is left of its faces are made.
pub fn clean(
    drawn: MeshRead,
    positions: &mut [f64],
    textures: &mut [f64],
    normals: &mut [f64],
    corners: &mut [u32],
    sizes: &mut [u32],
) -> MeshRead
    requires { Standing (mesh_of positions.old textures.old normals.old corners.old sizes.old) drawn }
    ensures { Kept
        (cleaned (front_of (mesh_of positions.old textures.old normals.old corners.old sizes.old) drawn))
        (mesh_of positions.new textures.new normals.new corners.new sizes.new) result }
{
    let mut unfolded = [0u32; mesh::CORNER_NUMBERS];
    let mut newsizes = [0u32; mesh::FACES];
    let mut origins = [0u32; mesh::FACES];
    remove_in(
        drawn,
        &mut unfolded[..],
        &mut newsizes[..],
        &mut origins[..],
        positions,
        textures,
        normals,
        corners,
        sizes,
    )
}

// Folded faces are removed; which face each came from is not needed further, nor are their pieces: that list holds the new numbers of entries
// from here on.
fn remove_in(
    drawn: MeshRead,
    unfolded: &mut [u32],
    newsizes: &mut [u32],
    origins: &mut [u32],
    positions: &mut [f64],
    textures: &mut [f64],
    normals: &mut [f64],
    corners: &mut [u32],
    sizes: &mut [u32],
) -> MeshRead
    requires { FaceRoom (mesh_of positions.old textures.old normals.old corners.old sizes.old) drawn
        unfolded.old newsizes.old origins.old }
    ensures { Kept
        (cleaned (front_of (mesh_of positions.old textures.old normals.old corners.old sizes.old) drawn))
        (mesh_of positions.new textures.new normals.new corners.new sizes.new) result }
{
    let c = WIDTH * drawn.corners;
    let f = drawn.faces;
    let left = allfaces::remove_within(corners, sizes, c, f, unfolded, newsizes, origins);
    let k = WIDTH * left.corners;
    let g = left.faces;
    compact(
        drawn,
        &sizes[..g],
        unfolded,
        positions,
        textures,
        normals,
        &mut corners[..k],
    )
}

// A mesh without folded faces, whose entries are at the front of their lists: what no face uses goes, where it stands.
fn compact(
    drawn: MeshRead,
    sizes: &[u32],
    numbers: &mut [u32],
    positions: &mut [f64],
    textures: &mut [f64],
    normals: &mut [f64],
    corners: &mut [u32],
) -> MeshRead
    requires { Unfolded (mesh_of positions.old textures.old normals.old corners.old sizes.now) drawn numbers.old }
    ensures { Kept
        (compacted (unfolded_front (mesh_of positions.old textures.old normals.old corners.old sizes.now) drawn))
        (mesh_of positions.new textures.new normals.new corners.new sizes.now) result }
{
    let p = POINT_WIDTH * drawn.positions;
    let t = TEXEL_WIDTH * drawn.textures;
    let n = POINT_WIDTH * drawn.normals;
    let kept = inplace::compact(
        &mut positions[..p],
        &mut textures[..t],
        &mut normals[..n],
        corners,
        sizes,
        numbers,
    );
    MeshRead {
        number: 0,
        positions: kept.positions,
        textures: kept.textures,
        normals: kept.normals,
        corners: corners.len() / WIDTH,
        faces: sizes.len(),
    }
}
