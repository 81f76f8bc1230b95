// Folded faces: a face with two corners of equal positions goes, or becomes what is left of it.
//
// Here are the call on a mesh that is not checked yet, the form for an accepted one, and the mesh in which no face is folded; what is
// left where one is, is written by crate allfaces. The definitions that a caller cites stand in removal's specs/Folded.antt and
// specs/Origins.antt.
#![tactic(auto)]

ghost use Rattle.std.specs.Prelude.{◌≡◌, length};
ghost use Rattle.lists.specs.Lists.{some, span};
ghost use Rattle.mesh.specs.Mesh.{rings};
ghost use Rattle.mesh.specs.Seen.{seen};
ghost use Rattle.folding.specs.Folding.{folded};
ghost use Rattle.removal.specs.Folded as want;
ghost use Rattle.removal.specs.Origins.{origins_of};
ghost use Rattle.removal.specs.Working.{Fit, Ready, Given, Left};

use grouping::Filled;
use mesh::{LEAST_RING, Mesh, Refusal, WIDTH};

// Lends three lists for the result: corners and sizes, and for each face the number of the face it came from; positions, texture points
// and normals don't change. The corners need the room of the mesh's, the sizes and the origins each a third of the number of corners, rounded
// down. Answers how many corners and faces are left; or the refusal 1 to 5 as the mesh earns, or 9 where a result list is too short, with
// nothing written.
pub fn remove_degenerate_faces(
    mesh: &Mesh<'_>,
    newcorners: &mut [u32],
    newsizes: &mut [u32],
    origins: &mut [u32],
) -> Result<Filled, Refusal>
    ensures { want.Removal
        (seen mesh.now)
        (want.result_of newcorners.old newsizes.old origins.old)
        (want.result_of newcorners.new newsizes.new origins.new)
        (want.removed_of result) }
{
    mesh.check()?;
    let faces = mesh.corners.len() / WIDTH / LEAST_RING;
    if newcorners.len() < mesh.corners.len() || newsizes.len() < faces || origins.len() < faces {
        return Err(Refusal::Room);
    }
    Ok(remove(mesh.corners, mesh.sizes, newcorners, newsizes, origins))
}

// What is left of the faces of an accepted mesh. Where none is folded, that is all of them, as they stand.
pub fn remove(
    corners: &[u32],
    sizes: &[u32],
    newcorners: &mut [u32],
    newsizes: &mut [u32],
    origins: &mut [u32],
) -> Filled
    requires { Given corners.now sizes.now newcorners.old newsizes.old origins.old }
    ensures { Left (want.removed (rings sizes.now corners.now))
        (origins_of (rings sizes.now corners.now))
        newcorners.old newcorners.new newsizes.old newsizes.new origins.old origins.new
        0 0 result.corners result.faces }
{
    if any_folded(corners, sizes) {
        return allfaces::remove_folded(corners, sizes, newcorners, newsizes, origins);
    }
    keep_all(corners, sizes, newcorners, newsizes, origins)
}

// Whether some face is folded.
fn any_folded(corners: &[u32], sizes: &[u32]) -> bool
    requires { Fit corners.now sizes.now }
    ensures { result ≡ some folded (rings sizes.now corners.now) }
{
    let mut from = 0;
    for (k, n) in sizes.iter().enumerate() {
        let face = mesh::face_at(corners, sizes, k, from);
        if oneface::is_folded(face, *n as usize) {
            return true;
        }
        from += *n as usize;
    }
    false
}

// All faces, as they stand, each with its own number.
fn keep_all(
    corners: &[u32],
    sizes: &[u32],
    newcorners: &mut [u32],
    newsizes: &mut [u32],
    origins: &mut [u32],
) -> Filled
    requires { Ready corners.now sizes.now newcorners.old newsizes.old origins.old }
    ensures { Left (rings sizes.now corners.now) (span 0 (length sizes.now))
        newcorners.old newcorners.new newsizes.old newsizes.new origins.old origins.new
        0 0 result.corners result.faces }
{
    lists::put(corners, newcorners, 0);
    lists::put(sizes, newsizes, 0);
    sorting::count_up(&mut origins[..sizes.len()]);
    Filled {
        corners: corners.len() / WIDTH,
        faces: sizes.len(),
    }
}
