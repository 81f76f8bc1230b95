// What is left of all faces of a mesh, folded ones among them.
//
// One pass over the faces writes the pieces of each, in the order they come, behind one another, and beside each the number of the
// face it came from; then both are grouped as `push` does. What one face leaves is written by crate oneface. The rules stand in
// removal's specs/Folded.antt and specs/Origins.antt, those of one face in folding's specs/Folding.antt.
#![tactic(auto)]

ghost use Rattle.std.specs.Prelude.{take, ◌*◌, ◌≤◌, length};
ghost use Rattle.lists.specs.Lists.{each};
ghost use Rattle.mesh.specs.Limits.{width, least_ring};
ghost use Rattle.mesh.specs.Mesh.{rings};
ghost use Rattle.grouping.specs.Push.{Placed};
ghost use Rattle.folding.specs.Folding.{pieces};
ghost use Rattle.removal.specs.Folded as want;
ghost use Rattle.removal.specs.Origins.{numbered, origins_of};
ghost use Rattle.removal.specs.Working.{Triangles, Ready, Left, origins_from};
ghost use Rattle.allfaces.specs.Working.{Numbered, Behind, Standing};

use grouping::Filled;
use mesh::WIDTH;

// How many numbers a triangle has.
const TRIANGLE: usize = 3 * WIDTH;

// The triangles stand first and leave only triangles: they go straight to the result, and what is left of the others behind them.
pub fn remove_folded(
    corners: &[u32],
    sizes: &[u32],
    newcorners: &mut [u32],
    newsizes: &mut [u32],
    origins: &mut [u32],
) -> Filled
    requires { Ready corners.now sizes.now newcorners.old newsizes.old origins.old }
    ensures { Left (want.removed (rings sizes.now corners.now))
        (origins_of (rings sizes.now corners.now))
        newcorners.old newcorners.new newsizes.old newsizes.new origins.old origins.new
        0 0 result.corners result.faces }
{
    let k = triangles(sizes);
    let a = TRIANGLE * k;
    let at = all_pieces(&corners[..a], &sizes[..k], 0, newcorners, newsizes, origins);
    if k == sizes.len() {
        return at;
    }
    remove_behind(
        &corners[a..],
        &sizes[k..],
        k,
        newcorners,
        newsizes,
        origins,
        at,
    )
}

// What is left of faces goes behind what is written; the first of them has number `first`.
fn remove_behind(
    corners: &[u32],
    sizes: &[u32],
    first: usize,
    newcorners: &mut [u32],
    newsizes: &mut [u32],
    origins: &mut [u32],
    at: Filled,
) -> Filled
    requires { Behind first corners.now sizes.now newcorners.old newsizes.old origins.old at.corners at.faces }
    ensures { Left (want.removed (rings sizes.now corners.now))
        (origins_from first (rings sizes.now corners.now))
        newcorners.old newcorners.new newsizes.old newsizes.new origins.old origins.new
        at.corners at.faces result.corners result.faces }
{
    let c = at.corners;
    let f = at.faces;
    let b = WIDTH * c;
    let left = remove_larger(
        corners,
        sizes,
        first,
        &mut newcorners[b..],
        &mut newsizes[f..],
        &mut origins[f..],
    );
    Filled {
        corners: c + left.corners,
        faces: f + left.faces,
    }
}

// How many triangles stand first.
fn triangles(sizes: &[u32]) -> usize
    ensures { Triangles sizes.now result }
{
    for (k, n) in sizes.iter().enumerate() {
        if *n != 3 {
            return k;
        }
    }
    sizes.len()
}

// The pieces of all faces and their numbers go to lists of their own, and from there to the result, grouped.
fn remove_larger(
    corners: &[u32],
    sizes: &[u32],
    first: usize,
    newcorners: &mut [u32],
    newsizes: &mut [u32],
    origins: &mut [u32],
) -> Filled
    requires { Numbered first corners.now sizes.now newcorners.old newsizes.old origins.old }
    ensures { Left (want.removed (rings sizes.now corners.now))
        (origins_from first (rings sizes.now corners.now))
        newcorners.old newcorners.new newsizes.old newsizes.new origins.old origins.new
        0 0 result.corners result.faces }
{
    let mut pieces = [0u32; mesh::CORNER_NUMBERS];
    let mut lens = [0u32; mesh::FACES];
    let mut tags = [0u32; mesh::FACES];
    let at = all_pieces(corners, sizes, first, &mut pieces, &mut lens, &mut tags);
    let lens = &lens[..at.faces];
    grouping::push_tags(lens, &tags[..at.faces], origins);
    grouping::push_all(&pieces[..WIDTH * at.corners], lens, newcorners, newsizes)
}

// What is left of the faces goes back to the lists that they stand in, the first c numbers of `corners` and the first f of `sizes`, by way of
// three lists for their pieces, so that there are no others. Which face each came from is not told.
pub fn remove_within(
    corners: &mut [u32],
    sizes: &mut [u32],
    c: usize,
    f: usize,
    pieces: &mut [u32],
    lens: &mut [u32],
    tags: &mut [u32],
) -> Filled
    requires { Standing corners.old sizes.old c f pieces.old lens.old tags.old }
    ensures { Placed (want.removed (rings (take f sizes.old) (take c corners.old)))
        corners.old corners.new sizes.old sizes.new 0 0 result.corners result.faces }
{
    let at = all_pieces(&corners[..c], &sizes[..f], 0, pieces, lens, tags);
    grouping::push_all(
        &pieces[..WIDTH * at.corners],
        &lens[..at.faces],
        corners,
        sizes,
    )
}

// One pass over the faces: the pieces of each go to the lists, in the order they come, and beside each the number of its face.
fn all_pieces(
    corners: &[u32],
    sizes: &[u32],
    first: usize,
    out: &mut [u32],
    lens: &mut [u32],
    tags: &mut [u32],
) -> Filled
    requires { Numbered first corners.now sizes.now out.old lens.old tags.old }
    ensures few_corners { width * result.corners ≤ length corners.now }
    ensures few_faces { width * least_ring * result.faces ≤ length corners.now }
    ensures left { Left (each pieces (rings sizes.now corners.now))
        (numbered first (rings sizes.now corners.now))
        out.old out.new lens.old lens.new tags.old tags.new
        0 0 result.corners result.faces }
{
    let mut to = Filled {
        corners: 0,
        faces: 0,
    };
    let mut from = 0;
    for (k, n) in sizes.iter().enumerate() {
        let face = mesh::face_at(corners, sizes, k, from);
        let f = to.faces;
        to = oneface::face_pieces(face, *n as usize, out, lens, to);
        grouping::fill_tags(tags, f, to.faces, (first + k) as u32);
        from += *n as usize;
    }
    to
}
