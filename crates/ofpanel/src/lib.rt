// The panel of each hem (document 02, CR 13): the panel that has the face that uses the hem's first edge.
//
// No face is searched for. The first edges of the hems stand as entries behind the uses of all edges; one stable sort by edge gives each entry
// the first entry of its edge (crate keys), which for a hem is a use; so the use's face is known, and its panel (crate labelled).
#![tactic(auto)]

ghost use Rattle.std.specs.Prelude.{◌≡◌, map, ℕ, ◌+◌, ◌<◌, length};
ghost use Rattle.std.proofs.lemmas.List.Edits.{sets};
ghost use Rattle.lists.specs.Cutting.{parts};
ghost use Rattle.mesh.specs.Mesh.{rings};
ghost use Rattle.hemlist.specs.HemList.{first_edge_lem, hem_panels};
ghost use Rattle.ofpanel.specs.OfPanel.{Panelled};
ghost use Rattle.ofpanel.specs.Steps.{PanelRows, WriteRoom, panels_by, FindRoom, FindRows, Found, EntryRoom, HemRoom, Wire, entries, hem_end, picked, end_of};

// So many entries there may be: uses of edges, and hems.
const ENTRIES: usize = 2 * mesh::CORNERS;

// The digit that every entry has in place of its normals: where all are alike they change no order.
const ALIKE: u32 = 1;

// The panel of each hem goes to the front of `out`. The hems are the house wires of a mesh that is accepted, with so many positions, as a
// flat list and a list of their numbers of edges.
pub fn put_panels(
    corners: &[u32],
    sizes: &[u32],
    positions: usize,
    flat: &[u32],
    edges: &[u32],
    out: &mut [u32],
)
    requires { Panelled corners.now sizes.now positions flat.now edges.now out.old }
    ensures { out.new ≡ sets out.old 0 (hem_panels (rings sizes.now corners.now)) }
{
    let mut firsts = [0u32; ENTRIES];
    let mut faces = [0u32; mesh::CORNERS];
    let mut labels = [0u32; mesh::FACES];
    let u = corners.len() / mesh::WIDTH;
    let h = edges.len();
    put_panels_in(
        corners,
        sizes,
        positions,
        flat,
        edges,
        &mut firsts[..u + h],
        &mut faces[..u],
        &mut labels[..sizes.len()],
        out,
    );
}

// The same, in rows: the first entry of each entry's edge, the face of each use, the panel of each face.
fn put_panels_in(
    corners: &[u32],
    sizes: &[u32],
    positions: usize,
    flat: &[u32],
    edges: &[u32],
    firsts: &mut [u32],
    faces: &mut [u32],
    labels: &mut [u32],
    out: &mut [u32],
)
    requires { PanelRows corners.now sizes.now positions flat.now edges.now firsts.old faces.old labels.old out.old }
    ensures { out.new ≡ sets out.old 0 (hem_panels (rings sizes.now corners.now)) }
{
    find_uses(corners, sizes, flat, edges, firsts);
    keys::put_faces(corners, sizes, faces);
    labelled::put_labels(corners, sizes, labels);
    write_panels(firsts, faces, labels, out);
}

// For each hem the panel of the face of the first entry of its edge. Hems stand behind the uses.
fn write_panels(firsts: &[u32], faces: &[u32], labels: &[u32], out: &mut [u32])
    requires { WriteRoom firsts.now faces.now labels.now out.old }
    ensures { out.new ≡ sets out.old 0 (panels_by firsts.now faces.now labels.now) }
{
    let u = faces.len();
    for k in 0..firsts.len() - u {
        let first = firsts[u + k] as usize;
        let face = faces[first] as usize;
        out[k] = labels[face];
    }
}

// Each entry gets the first entry of its edge.
fn find_uses(corners: &[u32], sizes: &[u32], flat: &[u32], edges: &[u32], firsts: &mut [u32])
    requires { FindRoom corners.now sizes.now flat.now edges.now firsts.old }
    ensures { Found (rings sizes.now corners.now) (parts edges.now flat.now) (length firsts.old) firsts.new }
{
    let mut lower = [0u32; ENTRIES];
    let mut higher = [0u32; ENTRIES];
    let alike = [ALIKE; ENTRIES];
    let mut order = [0u32; ENTRIES];
    let n = firsts.len();
    find_uses_in(
        corners,
        sizes,
        flat,
        edges,
        &mut lower[..n],
        &mut higher[..n],
        &alike[..n],
        &mut order[..n],
        firsts,
    );
}

// The same, in rows of one number for each entry, with a row that is alike all along.
fn find_uses_in(
    corners: &[u32],
    sizes: &[u32],
    flat: &[u32],
    edges: &[u32],
    lower: &mut [u32],
    higher: &mut [u32],
    alike: &[u32],
    order: &mut [u32],
    firsts: &mut [u32],
)
    requires { FindRows corners.now sizes.now flat.now edges.now lower.old higher.old alike.now order.old firsts.old }
    ensures { Found (rings sizes.now corners.now) (parts edges.now flat.now) (length firsts.old) firsts.new }
{
    put_entries(corners, sizes, flat, edges, columns::LOWER, lower);
    put_entries(corners, sizes, flat, edges, columns::HIGHER, higher);
    keys::firsts::put_firsts(lower, higher, alike, alike, false, order, firsts);
}

// One end of each entry's edge, the lower or the higher: first of the uses, then of the hems.
fn put_entries(
    corners: &[u32],
    sizes: &[u32],
    flat: &[u32],
    edges: &[u32],
    which: u32,
    out: &mut [u32],
)
    requires { EntryRoom corners.now sizes.now flat.now edges.now out.old }
    ensures { out.new ≡ entries which (rings sizes.now corners.now) (parts edges.now flat.now) }
{
    let u = corners.len() / mesh::WIDTH;
    columns::put_column(corners, sizes, false, which, &mut out[..u]);
    put_hem_ends(flat, edges, which, &mut out[u..]);
}

// The same end of the first edge of each hem.
fn put_hem_ends(flat: &[u32], edges: &[u32], which: u32, out: &mut [u32])
    requires { HemRoom flat.now edges.now out.old }
    ensures { out.new ≡ map (hem_end which) (parts edges.now flat.now) }
{
    let mut from: usize = 0;
    for (k, n) in edges.iter().enumerate() {
        let end = from + *n as usize;
        out[k] = hem_end(&flat[from..end], which);
        from = end;
    }
}

// One end of the first edge of a wire: it runs from the first position to the one behind it.
fn hem_end(wire: &[u32], which: u32) -> u32
    requires { Wire wire.now }
    ensures { result ≡ hem_end which wire.now }
{
    let a = wire[0];
    let b = wire[lists::next_of(0, wire.len())];
    if a < b {
        pick(which, a, b)
    } else {
        pick(which, b, a)
    }
}

fn pick(which: u32, lower: u32, higher: u32) -> u32
    ensures { result ≡ picked which lower higher }
{
    if which == columns::LOWER {
        lower
    } else {
        higher
    }
}
