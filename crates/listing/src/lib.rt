// The list of hems (document 02, CR 13): of each hem its panel, its number of edges and its length, in three lent lists.
//
// `list_hems` checks the mesh and the triples; `list_of` is for crates that have checked them.
#![tactic(auto)]

ghost use Rattle.std.specs.Prelude.{◌≡◌};
ghost use Rattle.mesh.specs.Mesh.{mesh_of, rings};
ghost use Rattle.hemlist.specs.Answer.{hem_lists_of, HemsListed};
ghost use Rattle.listing.specs.Listing.{Listable, ListRow, ListDone, refused_by};

use hemlist::Listed;

// The hems of a mesh that is taken as it is, not cleaned, and of coordinates in tenths of a millimetre, one triple for each position.
//
// Lends: `panels`, `edges` and `lengths`, one entry for each hem; room in each for one entry per corner. Panels are numbered as
// `components` lists them, from 0, without the normals setting.
// Numbers: 0 to 5; 18 the triples don't match the number of positions; 19 a coordinate is beyond 1,000,000 either way; 9; and 10 where the
// verdict is neither Oriented nor Closed.
pub fn list_hems(
    positions: &[f64],
    textures: &[f64],
    normals: &[f64],
    corners: &[u32],
    sizes: &[u32],
    triples: &[i32],
    panels: &mut [u32],
    edges: &mut [u32],
    lengths: &mut [u64],
) -> Listed
    ensures { HemsListed
        (mesh_of positions.now textures.now normals.now corners.now sizes.now)
        triples.now
        (hem_lists_of panels.old edges.old lengths.old)
        (hem_lists_of panels.new edges.new lengths.new)
        result }
{
    let number = mesh::number(positions, textures, normals, corners, sizes);
    if number != 0 {
        return refused(number);
    }
    if triples.len() != positions.len() {
        return refused(18);
    }
    if reaching::beyond_reach(triples) {
        return refused(19);
    }
    let room = corners.len() / mesh::WIDTH;
    if panels.len() < room {
        return refused(9);
    }
    if edges.len() < room {
        return refused(9);
    }
    if lengths.len() < room {
        return refused(9);
    }
    let n = positions.len() / mesh::POINT_WIDTH;
    list_of(corners, sizes, n, triples, panels, edges, lengths)
}

// The hems of a mesh that is accepted, with so many positions, and of triples that are: 10, or the list.
pub fn list_of(
    corners: &[u32],
    sizes: &[u32],
    positions: usize,
    triples: &[i32],
    panels: &mut [u32],
    edges: &mut [u32],
    lengths: &mut [u64],
) -> Listed
    requires { Listable corners.now sizes.now positions triples.now panels.old edges.old lengths.old }
    ensures { ListDone triples.now (rings sizes.now corners.now)
        (hem_lists_of panels.old edges.old lengths.old)
        (hem_lists_of panels.new edges.new lengths.new)
        result }
{
    let mut flat = [0u32; mesh::CORNERS];
    list_in(
        corners,
        sizes,
        positions,
        triples,
        &mut flat[..],
        panels,
        edges,
        lengths,
    )
}

// The same with a row for the wires' positions. Their numbers of edges are what is lent for them; with 10 nothing is written.
fn list_in(
    corners: &[u32],
    sizes: &[u32],
    positions: usize,
    triples: &[i32],
    flat: &mut [u32],
    panels: &mut [u32],
    edges: &mut [u32],
    lengths: &mut [u64],
) -> Listed
    requires { ListRow corners.now sizes.now positions triples.now flat.old panels.old edges.old lengths.old }
    ensures { ListDone triples.now (rings sizes.now corners.now)
        (hem_lists_of panels.old edges.old lengths.old)
        (hem_lists_of panels.new edges.new lengths.new)
        result }
{
    let house = house::house_of(corners, sizes, positions, flat, edges);
    let wires = house.wires;
    let refusal = wires.number;
    if refusal != 0 {
        return refused(refusal);
    }
    let f = wires.flat;
    let w = wires.wires;
    measured::put_lengths(&flat[..f], &edges[..w], triples, lengths);
    ofpanel::put_panels(corners, sizes, positions, &flat[..f], &edges[..w], panels);
    Listed { number: 0, hems: w }
}

// A refusal: the count beside it is 0.
fn refused(number: u32) -> Listed
    ensures { result ≡ refused_by number }
{
    Listed {
        number: number,
        hems: 0,
    }
}
