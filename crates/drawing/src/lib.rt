// A whole file drawn into lists of the reader's own, by crate steps, and what is done with them once the end record is met: the number, and
// the mesh handed over. The rules stand in crate reading.
#![tactic(auto)]

ghost use Rattle.std.specs.Prelude.{◌≡◌};
ghost use Rattle.mesh.specs.Mesh.{mesh_of};
ghost use Rattle.mesh.specs.Table.{short};
ghost use Rattle.reading.specs.Reading.{read_all, finish, full_room, panel_mesh};
ghost use Rattle.steps.specs.Working.{Long};
ghost use Rattle.reading.specs.Promises.{Full};
ghost use Rattle.drawing.specs.Drawing.{FileDrawn};
ghost use Rattle.drawing.specs.Working.{Drawing, Gathered};
ghost use Rattle.reading.specs.Answer.{refused_with, Handed};

use reading::MeshRead;
use steps::Progress;

// Record by record, until a refusal or the end record.
pub fn read_records(
    file: &[u8],
    positions: &mut [f64],
    textures: &mut [f64],
    normals: &mut [f64],
    corners: &mut [u32],
    sizes: &mut [u32],
) -> Progress
    requires { Long (mesh_of positions.old textures.old normals.old corners.old sizes.old) }
    ensures { Drawing file.now result
        (mesh_of positions.new textures.new normals.new corners.new sizes.new) }
{
    let mut x = Progress {
        at: 0,
        number: 0,
        ended: false,
        positions: 0,
        textures: 0,
        normals: 0,
        corners: 0,
        faces: 0,
    };
    'records: while !x.ended && x.number == 0 {
        x = steps::step(file, positions, textures, normals, corners, sizes, x);
    }
    x
}

// Whether a lent list is shorter than the full limits.
#[tactic(auto, unfolding(mesh::specs::Table::short, reading::specs::Reading::full_room))]
pub fn is_short(p: usize, t: usize, n: usize, c: usize, s: usize) -> bool
    ensures { result ≡ short (full_room p t n c s) }
{
    p < mesh::POINT_NUMBERS
        || t < mesh::TEXEL_NUMBERS
        || n < mesh::POINT_NUMBERS
        || c < mesh::CORNER_NUMBERS
        || s < mesh::FACES
}

// A refusal: its number, and counts of 0.
pub fn refused(number: u32) -> MeshRead
    ensures { result ≡ refused_with number }
{
    MeshRead {
        number,
        positions: 0,
        textures: 0,
        normals: 0,
        corners: 0,
        faces: 0,
    }
}

// The number once the reading has stopped: a refusal's own, then 13, then 5.
pub fn number_at_end(
    file: &[u8],
    x: Progress,
    p: &[f64],
    t: &[f64],
    n: &[f64],
    c: &[u32],
    s: &[u32],
) -> u32
    requires { Drawing file.now x (mesh_of p.now t.now n.now c.now s.now) }
    ensures { result ≡ finish file.now (read_all file.now) }
{
    if x.number != 0 {
        return x.number;
    }
    if x.at < file.len() {
        return 13;
    }
    if mesh::astray(
        &p[..3 * x.positions],
        &t[..2 * x.textures],
        &n[..3 * x.normals],
        &c[..mesh::WIDTH * x.corners],
        &s[..x.faces],
    ) {
        return 5;
    }
    0
}

// The mesh goes to the lent lists, its faces grouped.
pub fn hand_over(
    file: &[u8],
    x: Progress,
    p: &[f64],
    t: &[f64],
    n: &[f64],
    c: &[u32],
    s: &[u32],
    positions: &mut [f64],
    textures: &mut [f64],
    normals: &mut [f64],
    corners: &mut [u32],
    sizes: &mut [u32],
) -> MeshRead
    requires { Drawing file.now x (mesh_of p.now t.now n.now c.now s.now)
        × Full positions.old textures.old normals.old corners.old sizes.old }
    ensures { Handed (panel_mesh file.now)
        (mesh_of positions.old textures.old normals.old corners.old sizes.old)
        (mesh_of positions.new textures.new normals.new corners.new sizes.new)
        result }
{
    lists::put(&p[..3 * x.positions], positions, 0);
    lists::put(&t[..2 * x.textures], textures, 0);
    lists::put(&n[..3 * x.normals], normals, 0);
    let filled = grouping::push_all(&c[..mesh::WIDTH * x.corners], &s[..x.faces], corners, sizes);
    MeshRead {
        number: 0,
        positions: x.positions,
        textures: x.textures,
        normals: x.normals,
        corners: filled.corners,
        faces: filled.faces,
    }
}

// A whole file into lists of the caller's own, at the full limits: it is drawn where its mesh shall stand, so that no second mesh is needed
// beside it, but for faces that are not grouped yet. Answers 0 and the counts of the file's mesh, which then stands at the front of the
// lists; or the file's number, with counts of 0, and then nothing is promised of what the lists hold.
pub fn draw(
    file: &[u8],
    positions: &mut [f64],
    textures: &mut [f64],
    normals: &mut [f64],
    corners: &mut [u32],
    sizes: &mut [u32],
) -> MeshRead
    requires { Long (mesh_of positions.old textures.old normals.old corners.old sizes.old) }
    ensures { FileDrawn file.now
        (mesh_of positions.new textures.new normals.new corners.old sizes.old)
        (mesh_of positions.new textures.new normals.new corners.new sizes.new) result }
{
    let mut c = [0u32; mesh::CORNER_NUMBERS];
    let mut s = [0u32; mesh::FACES];
    let x = read_records(file, positions, textures, normals, &mut c, &mut s);
    let number = number_at_end(file, x, positions, textures, normals, &c, &s);
    if number != 0 {
        return refused(number);
    }
    gather(
        file, x, positions, textures, normals, &c, &s, corners, sizes,
    )
}

// The faces are grouped into lists of their own; what else was drawn stands already.
fn gather(
    file: &[u8],
    x: Progress,
    p: &[f64],
    t: &[f64],
    n: &[f64],
    c: &[u32],
    s: &[u32],
    corners: &mut [u32],
    sizes: &mut [u32],
) -> MeshRead
    requires { Gathered file.now x (mesh_of p.now t.now n.now c.now s.now) corners.old sizes.old }
    ensures { Handed (panel_mesh file.now)
        (mesh_of p.now t.now n.now corners.old sizes.old)
        (mesh_of p.now t.now n.now corners.new sizes.new)
        result }
{
    let filled = grouping::push_all(&c[..mesh::WIDTH * x.corners], &s[..x.faces], corners, sizes);
    MeshRead {
        number: 0,
        positions: x.positions,
        textures: x.textures,
        normals: x.normals,
        corners: filled.corners,
        faces: filled.faces,
    }
}
