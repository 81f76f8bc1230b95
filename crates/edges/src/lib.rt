// Verdict and hem edges of a mesh (document 01, 'Edges, verdict and wires').
//
// Crate uses writes down the uses of all edges and sorts them, so that the uses of one edge stand together, the last one last, and
// the edges ascend. Of crate scans, one scan over them counts each edge's uses for the verdict, another writes the last use of each
// edge with an odd number of uses: the hem edges.
//
// `shell_condition` and `hem_edges` check the mesh; `verdict_of` and `hems_of` are for crates that have checked it, and `judge` for those
// that go on with the sorted uses.
#![tactic(auto)]

ghost use Rattle.std.specs.Prelude.{◌≡◌, ℕ, ◌/◌, ◌≤◌, length};
ghost use Rattle.mesh.specs.Limits.{width};
ghost use Rattle.mesh.specs.Mesh.{mesh_of, rings};
ghost use Rattle.mesh.specs.Edges.{edges_of, Edged};
ghost use Rattle.uses.specs.Uses.{Gatherable};
ghost use Rattle.verdicts.specs.Edges.{verdict};
ghost use Rattle.edges.specs.Answers.{answer_of, judged, verdict_of, hems_in, HemAnswer, Hemmed};
ghost use Rattle.edges.specs.Runs.{named, JudgedUses, HemRows};

use scans::Tally;

// The four verdicts.
#[derive(Clone, Copy)]
pub enum ShellCondition {
    Irregular,
    Regular,
    Oriented,
    Closed,
}

// What `shell_condition` answers: the verdict, or the number of the refusal.
#[derive(Clone, Copy)]
pub enum Judged {
    Found(ShellCondition),
    Refused(u32),
}

// What `hem_edges` answers: its number, and how many hem edges there are.
#[derive(Clone, Copy)]
pub struct HemEdges {
    pub number: u32,
    pub count: usize,
}

// What `hems_of` answers: how many hem edges there are, and the verdict.
#[derive(Clone, Copy)]
pub struct Hems {
    pub count: usize,
    pub verdict: ShellCondition,
}

// The verdict of a mesh. Numbers 0 to 5.
pub fn shell_condition(
    positions: &[f64],
    textures: &[f64],
    normals: &[f64],
    corners: &[u32],
    sizes: &[u32],
) -> Judged
    ensures { answer_of result ≡ judged
        (mesh_of positions.now textures.now normals.now corners.now sizes.now) }
{
    let number = mesh::number(positions, textures, normals, corners, sizes);
    if number != 0 {
        return Judged::Refused(number);
    }
    Judged::Found(verdict_of(corners, sizes, positions.len() / 3))
}

// The hem edges of a mesh, ascending by lower and then by higher position, in the direction of each one's last use: where each
// starts and where each ends. Room in each list: one number per corner. Numbers 0 to 5 and 9.
pub fn hem_edges(
    positions: &[f64],
    textures: &[f64],
    normals: &[f64],
    corners: &[u32],
    sizes: &[u32],
    starts: &mut [u32],
    ends: &mut [u32],
) -> HemEdges
    ensures { HemAnswer
        (mesh_of positions.now textures.now normals.now corners.now sizes.now)
        (hems_in starts.old ends.old)
        (hems_in starts.new ends.new)
        result }
{
    let number = mesh::number(positions, textures, normals, corners, sizes);
    if number != 0 {
        return HemEdges { number, count: 0 };
    }
    let room = corners.len() / mesh::WIDTH;
    if starts.len() < room || ends.len() < room {
        return HemEdges {
            number: 9,
            count: 0,
        };
    }
    let hems = hems_of(corners, sizes, positions.len() / 3, starts, ends);
    HemEdges {
        number: 0,
        count: hems.count,
    }
}

// The verdict of a mesh that is accepted, with so many positions.
pub fn verdict_of(corners: &[u32], sizes: &[u32], positions: usize) -> ShellCondition
    requires { Edged corners.now sizes.now positions }
    ensures { verdict_of result ≡ verdict (edges_of (rings sizes.now corners.now)) }
{
    let mut lowers = [0u32; mesh::CORNERS];
    let mut highers = [0u32; mesh::CORNERS];
    let mut downs = [0u32; mesh::CORNERS];
    let mut first = [0u32; mesh::CORNERS];
    let mut order = [0u32; mesh::CORNERS];
    let n = corners.len() / mesh::WIDTH;
    judge(
        corners,
        sizes,
        positions,
        &mut lowers[..n],
        &mut highers[..n],
        &mut downs[..n],
        &mut first[..n],
        &mut order[..n],
    )
}

// The hem edges and the verdict of a mesh that is accepted, with so many positions.
pub fn hems_of(
    corners: &[u32],
    sizes: &[u32],
    positions: usize,
    starts: &mut [u32],
    ends: &mut [u32],
) -> Hems
    requires { Edged corners.now sizes.now positions
        × (length corners.now / width ≤ length starts.old) × (length corners.now / width ≤ length ends.old) }
    ensures { Hemmed
        (edges_of (rings sizes.now corners.now)) starts.old ends.old starts.new
        ends.new result }
{
    let mut lowers = [0u32; mesh::CORNERS];
    let mut highers = [0u32; mesh::CORNERS];
    let mut downs = [0u32; mesh::CORNERS];
    let mut first = [0u32; mesh::CORNERS];
    let mut order = [0u32; mesh::CORNERS];
    let n = corners.len() / mesh::WIDTH;
    hem(
        corners,
        sizes,
        positions,
        &mut lowers[..n],
        &mut highers[..n],
        &mut downs[..n],
        &mut first[..n],
        &mut order[..n],
        starts,
        ends,
    )
}

// The verdict, in rows that are lent for the columns and the order of the uses, which they hold then.
pub fn judge(
    corners: &[u32],
    sizes: &[u32],
    positions: usize,
    lowers: &mut [u32],
    highers: &mut [u32],
    downs: &mut [u32],
    first: &mut [u32],
    order: &mut [u32],
) -> ShellCondition
    requires { Gatherable corners.now sizes.now positions lowers.old highers.old downs.old first.old order.old }
    ensures { JudgedUses
        positions (edges_of (rings sizes.now corners.now)) lowers.new highers.new downs.new
        order.new (verdict_of result) }
{
    uses::gather(
        corners, sizes, positions, lowers, highers, downs, first, order,
    );
    name_of(scans::counting::tally_uses(lowers, highers, downs, order))
}

// The hem edges and the verdict, in rows that are lent for the columns and the order of the uses.
fn hem(
    corners: &[u32],
    sizes: &[u32],
    positions: usize,
    lowers: &mut [u32],
    highers: &mut [u32],
    downs: &mut [u32],
    first: &mut [u32],
    order: &mut [u32],
    starts: &mut [u32],
    ends: &mut [u32],
) -> Hems
    requires { HemRows
        corners.now sizes.now positions lowers.old highers.old downs.old first.old order.old starts.old ends.old }
    ensures { Hemmed
        (edges_of (rings sizes.now corners.now)) starts.old ends.old starts.new
        ends.new result }
{
    let verdict = judge(
        corners, sizes, positions, lowers, highers, downs, first, order,
    );
    let count = scans::writing::put_hems(lowers, highers, downs, order, starts, ends);
    Hems { count, verdict }
}

// The verdict by what was seen.
#[tactic(auto, unfolding(crate::specs::Runs::named, crate::specs::Answers::verdict_of))]
fn name_of(t: Tally) -> ShellCondition
    ensures { verdict_of result ≡ named t }
{
    if t.thrice {
        return ShellCondition::Irregular;
    }
    if t.alike {
        return ShellCondition::Regular;
    }
    if t.once {
        return ShellCondition::Oriented;
    }
    ShellCondition::Closed
}
