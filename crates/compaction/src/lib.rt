// Compaction: entries that no corner uses go, and the others are renumbered by first use.
//
// Corners are read in face order. Positions, then texture points, then normals are each renumbered by first use, from 0; the new
// lists hold the old entries in that order, bit for bit. A missing index stays missing. The definitions that a caller cites stand
// in unused's specs/Compaction.antt; one index of one corner is renumbered by crate oneindex.
#![tactic(auto)]

ghost use Rattle.mesh.specs.Seen.{seen};
ghost use Rattle.unused.specs.Compaction as want;
ghost use Rattle.unused.specs.Working.{Ready, Done};
ghost use Rattle.compaction.specs.Columns.{ColumnReady, ColumnDone};

use mesh::{Entries, MISSING, Mesh, POINT_WIDTH, Refusal, TEXEL_WIDTH};

// Lends four lists for the result: corners, positions, texture points and normals; the face sizes don't change. Each result list needs the
// room of the list that it is made from. Answers the counts of the new entries; or the refusal 1 to 5 as the mesh earns, or 9 where a result
// list is too short, with nothing written.
pub fn remove_unused_attrs(
    mesh: &Mesh<'_>,
    newcorners: &mut [u32],
    newpositions: &mut [f64],
    newtextures: &mut [f64],
    newnormals: &mut [f64],
) -> Result<Entries, Refusal>
    ensures { want.Compaction
        (seen mesh.now)
        (want.result_of newcorners.old newpositions.old newtextures.old newnormals.old)
        (want.result_of newcorners.new newpositions.new newtextures.new newnormals.new)
        (want.compacted_of result) }
{
    mesh.check()?;
    if newcorners.len() < mesh.corners.len()
        || newpositions.len() < mesh.positions.len()
        || newtextures.len() < mesh.textures.len()
        || newnormals.len() < mesh.normals.len()
    {
        return Err(Refusal::Room);
    }
    Ok(compact(mesh, newcorners, newpositions, newtextures, newnormals))
}

// The corners are written as they are, each with its mark; then, column by column, their indices get the new numbers. `cs`, `ps`, `ts` and
// `ns` are lent for the new corners, positions, texture points and normals.
pub fn compact(
    mesh: &Mesh<'_>,
    cs: &mut [u32],
    ps: &mut [f64],
    ts: &mut [f64],
    ns: &mut [f64],
) -> Entries
    requires { Ready mesh.now.positions.now mesh.now.textures.now mesh.now.normals.now mesh.now.corners.now
        (want.result_of cs.old ps.old ts.old ns.old) }
    ensures { Done mesh.now.positions.now mesh.now.textures.now mesh.now.normals.now mesh.now.corners.now
        (want.result_of cs.old ps.old ts.old ns.old)
        (want.result_of cs.new ps.new ts.new ns.new)
        (want.compacted_of (Ok result)) }
{
    let corners = mesh.corners;
    lists::put(corners, cs, 0);
    let p = compact_column(mesh.positions, POINT_WIDTH, corners, 0, ps, cs);
    let t = compact_column(mesh.textures, TEXEL_WIDTH, corners, 1, ts, cs);
    let n = compact_column(mesh.normals, POINT_WIDTH, corners, 2, ns, cs);
    Entries {
        positions: p,
        textures: t,
        normals: n,
    }
}

// One pass over the corners, for one of their columns: `out` gets its new numbers, and `fresh` the entries that it uses, w numbers wide, in
// the order of first use. Answers how many there are.
fn compact_column(
    attrs: &[f64],
    w: usize,
    corners: &[u32],
    q: usize,
    fresh: &mut [f64],
    out: &mut [u32],
) -> usize
    requires { ColumnReady attrs.now w corners.now q fresh.old out.old }
    ensures { ColumnDone attrs.now w corners.now q
        fresh.old fresh.new out.old out.new result }
{
    let mut old2new = [MISSING; mesh::ENTRIES];
    let mut used: u32 = 0;
    for k in 0..corners.len() / mesh::WIDTH {
        used = oneindex::take_in(attrs, w, corners, k, q, &mut old2new, used, fresh, out);
    }
    used as usize
}
