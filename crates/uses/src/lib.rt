// The uses of edges: each face uses the edges from each of its corners to the next, and from the last to the first.
//
// The uses of all edges are written down in the order of the faces, as three columns: lower position, higher position, and whether
// the use runs down, from the higher to the lower. They are sorted by higher, then by lower position; the sort is stable, so the
// uses of one edge stand together in the order of the faces, and the edges ascend.
#![tactic(auto)]

ghost use Rattle.std.specs.Prelude.{◌≡◌, [], ◌∷◌, ℕ, ◌+◌, ◌/◌, ◌<◌, length, get_or, drop};
ghost use Rattle.mesh.specs.Limits.{width};
ghost use Rattle.mesh.specs.Mesh.{rings};
ghost use Rattle.mesh.specs.Edges.{same, edges_of};
ghost use Rattle.uses.specs.Uses.{Written, Columned, UseRoom, Gatherable, Gathered, ReadyAt, face_edges, key_at, goes_on};

// The uses of all edges of a mesh that is accepted, with so many positions: their columns, and their order by edge. `first` is a row
// to work in.
pub fn gather(
    corners: &[u32],
    sizes: &[u32],
    positions: usize,
    lowers: &mut [u32],
    highers: &mut [u32],
    downs: &mut [u32],
    first: &mut [u32],
    order: &mut [u32],
)
    requires { Gatherable corners.now sizes.now positions lowers.old highers.old downs.old first.old order.old }
    ensures { Gathered
        positions (edges_of (rings sizes.now corners.now)) lowers.new highers.new downs.new
        order.new }
{
    put_uses(corners, sizes, lowers, highers, downs);
    sorting::count_up(order);
    sorting::sort_by_two(lowers, positions, highers, positions, order, first);
}

// Whether the use at place i of the order is followed by one of the same edge.
pub fn goes_on(lowers: &[u32], highers: &[u32], downs: &[u32], order: &[u32], i: usize) -> bool
    requires { ReadyAt lowers.now highers.now downs.now order.now i }
    ensures { result ≡ goes_on lowers.now highers.now (get_or order.now i 0) (drop (i + 1) order.now) }
{
    let u = order[i] as usize;
    match order.get(i + 1) {
        Some(next) => same_edge(lowers, highers, u, *next as usize),
        None => false,
    }
}

// Whether two uses are uses of one edge.
fn same_edge(lowers: &[u32], highers: &[u32], u: usize, v: usize) -> bool
    requires { (u < length lowers.now) × (v < length lowers.now) × (length highers.now ≡ length lowers.now) }
    ensures { result ≡ same (key_at lowers.now highers.now u) (key_at lowers.now highers.now v) }
{
    lowers[u] == lowers[v] && highers[u] == highers[v]
}

// The uses of all edges, in the order of the faces.
fn put_uses(
    corners: &[u32],
    sizes: &[u32],
    lowers: &mut [u32],
    highers: &mut [u32],
    downs: &mut [u32],
)
    requires { UseRoom corners.now sizes.now lowers.old highers.old downs.old }
    ensures { Written
        (edges_of (rings sizes.now corners.now)) 0 lowers.old highers.old downs.old
        lowers.new highers.new downs.new }
{
    let mut at: usize = 0;
    for (k, size) in sizes.iter().enumerate() {
        let face = mesh::face_at(corners, sizes, k, at);
        put_face(face, lowers, highers, downs, at);
        at += *size as usize;
    }
}

// The uses of a face's edges: from each corner to the next, and from the last to the first.
fn put_face(face: &[u32], lowers: &mut [u32], highers: &mut [u32], downs: &mut [u32], at: usize)
    requires { Columned (at + length face.now / width) lowers.old highers.old downs.old }
    ensures { Written
        (face_edges face.now) at lowers.old highers.old downs.old lowers.new
        highers.new downs.new }
{
    let n = face.len() / mesh::WIDTH;
    for i in 0..n {
        let a = mesh::WIDTH * i;
        let b = mesh::WIDTH * lists::next_of(i, n);
        put_use(face[a], face[b], lowers, highers, downs, at + i);
    }
}

// One use, from position a to position b.
fn put_use(a: u32, b: u32, lowers: &mut [u32], highers: &mut [u32], downs: &mut [u32], at: usize)
    requires { Columned (at + 1) lowers.old highers.old downs.old }
    ensures { Written
        ((a, b) ∷ []) at lowers.old highers.old downs.old lowers.new highers.new
        downs.new }
{
    if a <= b {
        lowers[at] = a;
        highers[at] = b;
        downs[at] = 0;
    } else {
        lowers[at] = b;
        highers[at] = a;
        downs[at] = 1;
    }
}
