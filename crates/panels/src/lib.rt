// Panels: the faces that hang together. Two faces are neighbours when they share an edge key: both positions, and with the normals
// setting also both normals. `components` lists the panels as the Rust's `components` does.
//
// Crate keys finds the first use of each use's key; so each use knows the first face that had its key, and joins are recorded in
// the order of the uses (joins.rt). Crate searching lists the panels that the joins make.
//
// `components` checks the mesh; `components_of` is for crates that have checked it.
#![tactic(auto)]

ghost use Rattle.std.specs.Prelude.{◌≡◌, length};
ghost use Rattle.mesh.specs.Mesh.{mesh_of, rings};
ghost use Rattle.mesh.specs.Listed.{listed_of};
ghost use Rattle.searching.specs.Joins.{flat_joins};
ghost use Rattle.searching.specs.Walk.{Parted};
ghost use Rattle.panels.specs.Panels.{joins, panels};
ghost use Rattle.panels.specs.Contract.{PanelsAnswer, refused_by};
ghost use Rattle.lists.specs.Putting.{Written};
ghost use Rattle.panels.specs.Rows.{PanelRoom, JoinRoom, JoinRows};

mod joins;

// What `components` answers: its number, how many faces it listed and in how many panels; both counts are 0 beside another number
// than 0.
#[derive(Clone, Copy)]
pub struct Answer {
    pub number: u32,
    pub faces: usize,
    pub panels: usize,
}

// The panels of a mesh.
//
// Lends: `flat`, the faces of all panels one after the other, and `lengths`, how many faces each panel has; room in each for one
// number per corner. With `use_normal` two faces are neighbours only where the normals at their shared edge are the same too.
// Numbers: 0 to 5, and 9.
pub fn components(
    positions: &[f64],
    textures: &[f64],
    normals: &[f64],
    corners: &[u32],
    sizes: &[u32],
    use_normal: bool,
    flat: &mut [u32],
    lengths: &mut [u32],
) -> Answer
    ensures { PanelsAnswer
        (mesh_of positions.now textures.now normals.now corners.now sizes.now) use_normal
        (listed_of flat.old lengths.old)
        (listed_of flat.new lengths.new)
        result }
{
    let number = mesh::number(positions, textures, normals, corners, sizes);
    if number != 0 {
        return refused(number);
    }
    let room = corners.len() / mesh::WIDTH;
    if flat.len() < room || lengths.len() < room {
        return refused(9);
    }
    let counts = components_of(corners, sizes, use_normal, flat, lengths);
    Answer {
        number: 0,
        faces: counts.faces,
        panels: counts.panels,
    }
}

// A refusal: each count beside it is 0.
fn refused(number: u32) -> Answer
    ensures { result ≡ refused_by number }
{
    Answer {
        number,
        faces: 0,
        panels: 0,
    }
}

// The panels of a mesh that is accepted, with room in each list for one number per face.
pub fn components_of(
    corners: &[u32],
    sizes: &[u32],
    use_normal: bool,
    flat: &mut [u32],
    lengths: &mut [u32],
) -> searching::Counts
    requires { PanelRoom corners.now sizes.now flat.old lengths.old }
    ensures { Parted
        (panels use_normal (rings sizes.now corners.now)) flat.old lengths.old flat.new
        lengths.new result.faces result.panels }
{
    let mut row = [0u32; searching::JOIN_NUMBERS];
    let n = find_joins(corners, sizes, use_normal, &mut row[..]);
    searching::part(&row[..n], sizes.len(), flat, lengths)
}

// The joins of a mesh, flat, in the order they are recorded: how many numbers they are.
fn find_joins(corners: &[u32], sizes: &[u32], normals: bool, out: &mut [u32]) -> usize
    requires { JoinRoom corners.now sizes.now out.old }
    ensures { Written (flat_joins (joins normals (rings sizes.now corners.now))) out.old out.new 0 result }
{
    let mut firsts = [0u32; mesh::CORNERS];
    let mut faces = [0u32; mesh::CORNERS];
    let u = corners.len() / mesh::WIDTH;
    record_joins(
        corners,
        sizes,
        normals,
        &mut firsts[..u],
        &mut faces[..u],
        out,
    )
}

// The same, in rows of one number for each use.
fn record_joins(
    corners: &[u32],
    sizes: &[u32],
    normals: bool,
    firsts: &mut [u32],
    faces: &mut [u32],
    out: &mut [u32],
) -> usize
    requires { JoinRows corners.now sizes.now firsts.old faces.old out.old }
    ensures { Written (flat_joins (joins normals (rings sizes.now corners.now))) out.old out.new 0 result }
{
    keys::first_uses(corners, sizes, normals, firsts);
    keys::put_faces(corners, sizes, faces);
    joins::put_joins(faces, firsts, out)
}
