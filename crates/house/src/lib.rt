// House wires along the hem edges of a mesh (document 01, 'Edges, verdict and wires'; document 02, request 5).
//
// The uses of all edges are sorted once, by lower and higher position. From that order come the verdict (crate edges) and, where it allows
// them, the wires (crate hemming).
//
// `house_wires` checks the mesh; `house_of` is for crates that have checked it, and answers the verdict beside the wires.
#![tactic(auto)]

ghost use Rattle.std.specs.Prelude.{◌≡◌};
ghost use Rattle.mesh.specs.Mesh.{mesh_of, rings};
ghost use Rattle.mesh.specs.Listed.{listed_of};
ghost use Rattle.edges.specs.Answers.{verdict_of};
ghost use Rattle.house.specs.Answers.{wired, HouseAnswer, HouseOf, WiresDone, HouseDone};
ghost use Rattle.house.specs.Rows.{HouseRows, WireRows};

use edges::ShellCondition;
use tracing::Wires;

// What `house_of` answers: the verdict, and what `house_wires` answers.
#[derive(Clone, Copy)]
pub struct Housed {
    pub verdict: ShellCondition,
    pub wires: Wires,
}

// The house wires of a mesh, as a flat list of positions and a list of lengths. Room: one number per corner in each. Numbers 0 to
// 5, 9, and 10 where the verdict is neither Oriented nor Closed.
pub fn house_wires(
    positions: &[f64],
    textures: &[f64],
    normals: &[f64],
    corners: &[u32],
    sizes: &[u32],
    flat: &mut [u32],
    lengths: &mut [u32],
) -> Wires
    ensures { HouseAnswer
        (mesh_of positions.now textures.now normals.now corners.now sizes.now)
        (listed_of flat.old lengths.old)
        (listed_of flat.new lengths.new)
        result }
{
    let number = mesh::number(positions, textures, normals, corners, sizes);
    if number != 0 {
        return tracing::refused(number);
    }
    let room = corners.len() / mesh::WIDTH;
    if flat.len() < room || lengths.len() < room {
        return tracing::refused(9);
    }
    let found = house_of(
        corners,
        sizes,
        positions.len() / mesh::POINT_WIDTH,
        flat,
        lengths,
    );
    found.wires
}

// The verdict and the house wires of a mesh that is accepted, with so many positions.
pub fn house_of(
    corners: &[u32],
    sizes: &[u32],
    positions: usize,
    flat: &mut [u32],
    lengths: &mut [u32],
) -> Housed
    requires { HouseOf corners.now sizes.now positions flat.old lengths.old }
    ensures { HouseDone (rings sizes.now corners.now)
        (listed_of flat.old lengths.old)
        (listed_of flat.new lengths.new)
        result }
{
    let mut lowers = [0u32; mesh::CORNERS];
    let mut highers = [0u32; mesh::CORNERS];
    let mut downs = [0u32; mesh::CORNERS];
    let mut first = [0u32; mesh::CORNERS];
    let mut order = [0u32; mesh::CORNERS];
    let mut twins = [0u32; mesh::CORNERS];
    let n = corners.len() / mesh::WIDTH;
    house_in(
        corners,
        sizes,
        positions,
        &mut lowers[..n],
        &mut highers[..n],
        &mut downs[..n],
        &mut first[..n],
        &mut order[..n],
        &mut twins[..n],
        flat,
        lengths,
    )
}

// The same in rows that are lent, one number for each corner. Rows that have served take what comes next.
fn house_in(
    corners: &[u32],
    sizes: &[u32],
    positions: usize,
    lowers: &mut [u32],
    highers: &mut [u32],
    downs: &mut [u32],
    first: &mut [u32],
    order: &mut [u32],
    twins: &mut [u32],
    flat: &mut [u32],
    lengths: &mut [u32],
) -> Housed
    requires { HouseRows
        corners.now sizes.now positions lowers.old highers.old downs.old first.old order.old twins.old flat.old lengths.old }
    ensures { HouseDone (rings sizes.now corners.now)
        (listed_of flat.old lengths.old)
        (listed_of flat.new lengths.new)
        result }
{
    let verdict = edges::judge(
        corners, sizes, positions, lowers, highers, downs, first, order,
    );
    let wires = wires_in(
        verdict, corners, sizes, positions, lowers, highers, downs, first, order, twins, flat,
        lengths,
    );
    Housed { verdict, wires }
}

// The wires of sorted uses, where their verdict allows them.
fn wires_in(
    verdict: ShellCondition,
    corners: &[u32],
    sizes: &[u32],
    positions: usize,
    lowers: &mut [u32],
    highers: &mut [u32],
    downs: &mut [u32],
    first: &mut [u32],
    order: &[u32],
    twins: &mut [u32],
    flat: &mut [u32],
    lengths: &mut [u32],
) -> Wires
    requires { WireRows (verdict_of verdict)
        corners.now sizes.now positions lowers.old highers.old downs.old first.old order.now twins.old flat.old lengths.old }
    ensures { WiresDone (verdict_of verdict) (rings sizes.now corners.now)
        (listed_of flat.old lengths.old)
        (listed_of flat.new lengths.new)
        result }
{
    if !is_wired(verdict) {
        return tracing::refused(10);
    }
    let done = hemming::trace(
        corners, sizes, positions, lowers, highers, downs, first, order, twins, flat, lengths,
    );
    Wires {
        number: 0,
        flat: done.flat,
        wires: done.wires,
    }
}

// House wires are for these two verdicts alone.
#[tactic(auto, unfolding(edges::specs::Answers::verdict_of))]
fn is_wired(verdict: ShellCondition) -> bool
    ensures { result ≡ wired (verdict_of verdict) }
{
    match verdict {
        ShellCondition::Irregular => false,
        ShellCondition::Regular => false,
        ShellCondition::Oriented => true,
        ShellCondition::Closed => true,
    }
}
