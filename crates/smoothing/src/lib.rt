// Smoothing by Loop's method (document 02, 'CR 4'): four triangles for one, the old positions moved, and one new position on each edge.
//
// The edges are numbered by first use (crate numbering); what stands around each position is gathered from them (around, pulling); then
// the faces are written by the numbers of their edges (fourfold) and the positions by what was gathered (moved). Smoothable has the
// tests on what is given. The definitions that a caller cites stand in specs/Smoothing.antt, the rules in crate smoothed.
#![tactic(auto)]

ghost use Rattle.std.specs.Prelude.{◌≡◌, length};
ghost use Rattle.mesh.specs.Mesh.{mesh_of};
ghost use Rattle.smoothed.specs.Refusals.{lists};
ghost use Rattle.numbering.specs.Numbering.{rows};
ghost use Rattle.smoothing.specs.Smoothing.{Smoothing};
ghost use Rattle.smoothing.specs.Working.{refused_by, Few, late_number, Checked, Room, Done, Writable, Filled};

use fourfold::FOLD;
use mesh::{POINT_WIDTH, WIDTH};

// No more faces than this can be smoothed.
const MOST_FACES: usize = mesh::FACES / FOLD;

// The number returned, and how many positions, corners and faces there are then.
#[derive(Clone, Copy)]
pub struct Smoothed {
    pub number: u32,
    pub positions: usize,
    pub corners: usize,
    pub faces: usize,
}

// Takes the mesh in five lists, the cosines of pi/n and of 2·pi/n, n from 1 to 64, in two, and lends three for the result: positions,
// corners and sizes; texture points and normals don't change. The positions need room for a point for each position and one for each
// corner; the corners and the sizes each four times the room of the input's. Answers 0 and how many positions, corners and faces there
// are; or 1 to 5 as the mesh earns; or 7, 15, 16, 10, 17, 1 and 9 in this order, as document 02 says, with counts of 0 and nothing
// written.
pub fn loop_subdivision(
    positions: &[f64],
    textures: &[f64],
    normals: &[f64],
    corners: &[u32],
    sizes: &[u32],
    ones: &[f64],
    twos: &[f64],
    newpositions: &mut [f64],
    newcorners: &mut [u32],
    newsizes: &mut [u32],
) -> Smoothed
    ensures { Smoothing
        (mesh_of positions.now textures.now normals.now corners.now sizes.now)
        ones.now twos.now
        (lists newpositions.old newcorners.old newsizes.old)
        (lists newpositions.new newcorners.new newsizes.new)
        result }
{
    let number = smoothable::number(positions, textures, normals, corners, sizes, ones, twos);
    if number != 0 {
        return refused(number);
    }
    smooth(
        positions,
        corners,
        sizes,
        ones,
        twos,
        newpositions,
        newcorners,
        newsizes,
    )
}

// A refusal: each count beside it is 0.
fn refused(number: u32) -> Smoothed
    ensures { result ≡ refused_by number }
{
    Smoothed {
        number: number,
        positions: 0,
        corners: 0,
        faces: 0,
    }
}

// What is known of each use of an edge, its number, and of each edge, by these numbers: its lower and its higher position, its first and
// its last wing, and how many wings it has.
#[derive(Clone, Copy)]
struct EdgeRows<'a> {
    numbers: &'a [u32],
    lowers: &'a [u32],
    highers: &'a [u32],
    firsts: &'a [u32],
    seconds: &'a [u32],
    wings: &'a [u32],
}

// A mesh that has passed the tests, with rows to work in: a number for each use of an edge, and for each position.
fn smooth(
    positions: &[f64],
    corners: &[u32],
    sizes: &[u32],
    ones: &[f64],
    twos: &[f64],
    newpositions: &mut [f64],
    newcorners: &mut [u32],
    newsizes: &mut [u32],
) -> Smoothed
    requires { Checked positions.now corners.now sizes.now ones.now twos.now }
    ensures { Done positions.now corners.now sizes.now ones.now twos.now
        (lists newpositions.old newcorners.old newsizes.old)
        (lists newpositions.new newcorners.new newsizes.new)
        result }
{
    let mut numbers = [0u32; mesh::CORNERS];
    let mut lowers = [0u32; mesh::CORNERS];
    let mut highers = [0u32; mesh::CORNERS];
    let mut firsts = [0u32; mesh::CORNERS];
    let mut seconds = [0u32; mesh::CORNERS];
    let mut wings = [0u32; mesh::CORNERS];
    let mut degrees = [0u32; mesh::ENTRIES];
    let u = corners.len() / WIDTH;
    let n = positions.len() / POINT_WIDTH;
    smooth_in(
        positions,
        corners,
        sizes,
        ones,
        twos,
        &mut numbers[..u],
        &mut lowers[..u],
        &mut highers[..u],
        &mut firsts[..u],
        &mut seconds[..u],
        &mut wings[..u],
        &mut degrees[..n],
        newpositions,
        newcorners,
        newsizes,
    )
}

// The same in these rows: the edges and how many neighbours each position has, the tests that were left, and then the result.
fn smooth_in(
    positions: &[f64],
    corners: &[u32],
    sizes: &[u32],
    ones: &[f64],
    twos: &[f64],
    numbers: &mut [u32],
    lowers: &mut [u32],
    highers: &mut [u32],
    firsts: &mut [u32],
    seconds: &mut [u32],
    wings: &mut [u32],
    degrees: &mut [u32],
    newpositions: &mut [f64],
    newcorners: &mut [u32],
    newsizes: &mut [u32],
) -> Smoothed
    requires checked { Checked positions.now corners.now sizes.now ones.now twos.now }
    requires room { Room positions.now corners.now (rows numbers.old lowers.old highers.old firsts.old seconds.old wings.old) degrees.old }
    ensures { Done positions.now corners.now sizes.now ones.now twos.now
        (lists newpositions.old newcorners.old newsizes.old)
        (lists newpositions.new newcorners.new newsizes.new)
        result }
{
    let count = numbering::number_edges(corners, numbers, lowers, highers, firsts, seconds, wings);
    let edges = EdgeRows {
        numbers,
        lowers: &lowers[..count],
        highers: &highers[..count],
        firsts: &firsts[..count],
        seconds: &seconds[..count],
        wings: &wings[..count],
    };
    around::put_degrees(edges.lowers, edges.highers, degrees);
    let number = late_number(
        degrees,
        corners.len(),
        sizes.len(),
        newpositions.len(),
        newcorners.len(),
        newsizes.len(),
    );
    if number != 0 {
        return refused(number);
    }
    write(
        positions,
        corners,
        ones,
        twos,
        edges,
        degrees,
        newpositions,
        newcorners,
    );
    fourfold::put_sizes(sizes.len(), newsizes);
    Smoothed {
        number: 0,
        positions: degrees.len() + count,
        corners: FOLD * (corners.len() / WIDTH),
        faces: FOLD * sizes.len(),
    }
}

// The number that is left to be earned: 17 by the numbers of neighbours, 1 by so many faces, 9 by the room of the three lists.
fn late_number(
    degrees: &[u32],
    corners: usize,
    faces: usize,
    newpositions: usize,
    newcorners: usize,
    newsizes: usize,
) -> u32
    requires { Few (length degrees.now) corners faces }
    ensures { result ≡ late_number degrees.now corners faces newpositions newcorners newsizes }
{
    if smoothable::crowded(degrees) {
        return 17;
    }
    if MOST_FACES < faces {
        return 1;
    }
    if newpositions < POINT_WIDTH * (degrees.len() + corners / WIDTH)
        || newcorners < FOLD * corners
        || newsizes < FOLD * faces
    {
        return 9;
    }
    0
}

// The faces by the numbers of their edges, and the positions by what stands around each, gathered here from the edges.
fn write(
    positions: &[f64],
    corners: &[u32],
    ones: &[f64],
    twos: &[f64],
    edges: EdgeRows,
    degrees: &[u32],
    newpositions: &mut [f64],
    newcorners: &mut [u32],
)
    requires { Writable positions.now corners.now ones.now twos.now
        (rows edges.numbers.now edges.lowers.now edges.highers.now edges.firsts.now edges.seconds.now edges.wings.now)
        degrees.now newpositions.old newcorners.old }
    ensures { Filled positions.now corners.now ones.now twos.now
        newpositions.old newpositions.new newcorners.old newcorners.new }
{
    let n = degrees.len();
    let mut first = [0u32; mesh::ENTRIES];
    let mut second = [0u32; mesh::ENTRIES];
    let mut pulls = [0.0f64; mesh::POINT_NUMBERS];
    let first = &mut first[..n];
    let second = &mut second[..n];
    let pulls = &mut pulls[..positions.len()];
    around::put_hems(edges.lowers, edges.highers, edges.wings, first, second);
    pulling::put_pulls(positions, edges.lowers, edges.highers, pulls);
    moved::put_moved(positions, degrees, first, second, pulls, twos, newpositions);
    moved::put_middles(
        positions,
        edges.lowers,
        edges.highers,
        edges.firsts,
        edges.seconds,
        edges.wings,
        degrees,
        second,
        ones,
        newpositions,
        n,
    );
    fourfold::put_faces(corners, edges.numbers, n, newcorners);
}
