// The lengths of hems: of each edge the whole root of the squared distance, and of each hem the sum (document 02, CR 13).
#![tactic(auto)]

ghost use Rattle.std.specs.Prelude.{◌≡◌, map};
ghost use Rattle.std.proofs.lemmas.List.Edits.{sets};
ghost use Rattle.lists.specs.Cutting.{parts};
ghost use Rattle.hemlist.specs.HemList.{point_of, edge_length, hem_length};
ghost use Rattle.hemlist.specs.Working.{Placed};
ghost use Rattle.measured.specs.Measured.{Measurable, Walkable};

// The length of each hem goes to the front of `out`. Hems are given as a flat list of positions and a list of their numbers of edges, and
// the positions' coordinates as triples.
pub fn put_lengths(flat: &[u32], edges: &[u32], triples: &[i32], out: &mut [u64])
    requires { Measurable flat.now edges.now triples.now out.old }
    ensures { out.new ≡ sets out.old 0
        (map (hem_length (point_of triples.now)) (parts edges.now flat.now)) }
{
    let mut from: usize = 0;
    for (k, n) in edges.iter().enumerate() {
        let end = from + *n as usize;
        out[k] = hem_length(&flat[from..end], triples);
        from = end;
    }
}

// The length of one hem: the edges from each position to the next, and from the last to the first, added up.
fn hem_length(wire: &[u32], triples: &[i32]) -> u64
    requires { Walkable wire.now triples.now }
    ensures { result ≡ hem_length (point_of triples.now) wire.now }
{
    let mut long: u64 = 0;
    for (i, p) in wire.iter().enumerate() {
        let q = wire[lists::next_of(i, wire.len())];
        long += edge_length(triples, *p as usize, q as usize);
    }
    long
}

// The length of the edge between positions p and q.
fn edge_length(triples: &[i32], p: usize, q: usize) -> u64
    requires { Placed triples.now p × Placed triples.now q }
    ensures { result ≡ edge_length (point_of triples.now) (p, q) }
{
    let ax = triples[mesh::POINT_WIDTH * p];
    let ay = triples[mesh::POINT_WIDTH * p + 1];
    let az = triples[mesh::POINT_WIDTH * p + 2];
    let bx = triples[mesh::POINT_WIDTH * q];
    let by = triples[mesh::POINT_WIDTH * q + 1];
    let bz = triples[mesh::POINT_WIDTH * q + 2];
    roots::length_between(ax, ay, az, bx, by, bz)
}
