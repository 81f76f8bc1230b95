// Faces in any order become the two lists of a mesh: the call for a caller who has not grouped them.
//
// `push` takes the corners of all faces, one face behind the other, and how many corners each has. Triangles come first in the
// result, then quadrangles, then larger faces, each in the order in which they came; faces of fewer than three corners are dropped.
// The grouping itself is `grouping::push_all`; here stand the checks. What a caller cites stands in specs/Faces.antt.
#![tactic(auto)]

ghost use Rattle.std.specs.Prelude.{◌≡◌, ◌≤◌, length};
ghost use Rattle.mesh.specs.Limits.{face_limit};
ghost use Rattle.mesh.specs.Refusals.{refused_number};
ghost use Rattle.mesh.specs.Table as table;
ghost use Rattle.faces.specs.Faces as want;

use grouping::Filled;
use mesh::Refusal;

// Lends two lists for the result, each with the room of the list that it is made from. Answers how many corners and faces are
// written; or the refusal 1, 2 or 3 as the faces earn, or 9 where a result list is too short, with nothing written. Indices are not
// looked at: no list of positions, texture points or normals is given.
pub fn push(
    corners: &[u32],
    sizes: &[u32],
    newcorners: &mut [u32],
    newsizes: &mut [u32],
) -> Result<Filled, Refusal>
    ensures { want.Grouped
        (want.faces_of corners.now sizes.now)
        (want.faces_of newcorners.old newsizes.old)
        (want.faces_of newcorners.new newsizes.new)
        (want.pushed_of result) }
{
    check(corners, sizes)?;
    if newcorners.len() < corners.len() || newsizes.len() < sizes.len() {
        return Err(Refusal::Room);
    }
    Ok(grouping::push_all(corners, sizes, newcorners, newsizes))
}

// Rows 1 to 3 of the table, for faces that need not be grouped.
#[tactic(auto, unfolding(crate::specs::Faces::faces_number))]
fn check(corners: &[u32], sizes: &[u32]) -> Result<(), Refusal>
    ensures { refused_number result ≡ want.faces_number corners.now sizes.now }
{
    if over_limits(corners, sizes) {
        return Err(Refusal::OverLimit);
    }
    if uneven(corners, sizes) {
        return Err(Refusal::Misfit);
    }
    if too_large(sizes) {
        return Err(Refusal::FaceSize);
    }
    Ok(())
}

// Row 1: there are more corner numbers than limit times width, or more face sizes than the limit.
#[tactic(auto, unfolding(mesh::specs::Table::over_limits))]
fn over_limits(corners: &[u32], sizes: &[u32]) -> bool
    ensures { result ≡ table.over_limits (want.bare corners.now sizes.now) }
{
    mesh::CORNER_NUMBERS < corners.len() || mesh::FACES < sizes.len()
}

// Row 2: the corner numbers are no multiple of their width, or the sizes don't add up to them.
#[tactic(auto, unfolding(mesh::specs::Table::uneven))]
fn uneven(corners: &[u32], sizes: &[u32]) -> bool
    requires { length sizes.now ≤ face_limit }
    ensures { result ≡ table.uneven (want.bare corners.now sizes.now) }
{
    corners.len() % mesh::WIDTH != 0
        || mesh::WIDTH * mesh::offset(sizes, sizes.len()) != corners.len()
}

// Row 3: a face has more corners than the limit. One of fewer than three is no fault; it is dropped.
#[tactic(auto, unfolding(crate::specs::Faces::too_large))]
fn too_large(sizes: &[u32]) -> bool
    ensures { result ≡ want.too_large sizes.now }
{
    sizes.iter().any(|n| mesh::RING < *n as usize)
}
