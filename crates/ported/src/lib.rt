// Ported wires along the hem edges of a mesh (document 01, 'Edges, verdict and wires').
//
// The table of first edges is a map from start to end: a later edge replaces an earlier with the same start, so that a position has one
// edge and no edge has a next.
//
// `extract_boundaries` checks the mesh; `ported_of` is for crates that have checked it.
#![tactic(auto)]

ghost use Rattle.std.specs.Prelude.{◌≡◌};
ghost use Rattle.mesh.specs.Mesh.{mesh_of, rings};
ghost use Rattle.mesh.specs.Listed.{listed_of};
ghost use Rattle.edges.specs.Edges.{edges_of, hems};
ghost use Rattle.tracing.specs.Hems.{pairs, Written};
ghost use Rattle.tracing.specs.Tables.{Startable};
ghost use Rattle.ported.specs.Ported.{ported_wires};
ghost use Rattle.ported.specs.Answers.{PortedAnswer, PortedOf};
ghost use Rattle.ported.specs.Keeping.{numbered, Portable, PortedIn};

use tracing::{Traced, Wires};

// The ported wires of a mesh, as a flat list of positions and a list of lengths. Room: two numbers per corner in `flat`, one in
// `lengths`. Numbers 0 to 5 and 9.
pub fn extract_boundaries(
    positions: &[f64],
    textures: &[f64],
    normals: &[f64],
    corners: &[u32],
    sizes: &[u32],
    flat: &mut [u32],
    lengths: &mut [u32],
) -> Wires
    ensures { PortedAnswer
        (mesh_of positions.now textures.now normals.now corners.now sizes.now)
        (listed_of flat.old lengths.old)
        (listed_of flat.new lengths.new)
        result }
{
    let number = mesh::number(positions, textures, normals, corners, sizes);
    if number != 0 {
        return tracing::refused(number);
    }
    let room = corners.len() / mesh::WIDTH;
    if flat.len() < 2 * room || lengths.len() < room {
        return tracing::refused(9);
    }
    let done = ported_of(
        corners,
        sizes,
        positions.len() / mesh::POINT_WIDTH,
        flat,
        lengths,
    );
    Wires {
        number: 0,
        flat: done.flat,
        wires: done.wires,
    }
}

// The ported wires of a mesh that is accepted, with so many positions.
pub fn ported_of(
    corners: &[u32],
    sizes: &[u32],
    positions: usize,
    flat: &mut [u32],
    lengths: &mut [u32],
) -> Traced
    requires { PortedOf corners.now sizes.now positions flat.old lengths.old }
    ensures { Written (ported_wires (hems (edges_of (rings sizes.now corners.now))))
        flat.old lengths.old flat.new lengths.new
        result.flat result.wires }
{
    let mut starts = [0u32; mesh::CORNERS];
    let mut ends = [0u32; mesh::CORNERS];
    let found = edges::hems_of(corners, sizes, positions, &mut starts[..], &mut ends[..]);
    let n = found.count;
    trace_ported(&starts[..n], &ends[..n], flat, lengths)
}

// The ported wires of hem edges, into `flat` and `lengths`. Room: two numbers and one wire per hem edge.
fn trace_ported(starts: &[u32], ends: &[u32], flat: &mut [u32], lengths: &mut [u32]) -> Traced
    requires { Portable starts.now ends.now flat.old lengths.old }
    ensures { Written (ported_wires (pairs starts.now ends.now))
        flat.old lengths.old flat.new lengths.new
        result.flat result.wires }
{
    let mut firsts = [tracing::NOBODY; mesh::ENTRIES];
    let nexts = [tracing::NOBODY; mesh::CORNERS];
    ported_in(starts, ends, &nexts[..], &mut firsts[..], flat, lengths)
}

fn ported_in(
    starts: &[u32],
    ends: &[u32],
    nexts: &[u32],
    firsts: &mut [u32],
    flat: &mut [u32],
    lengths: &mut [u32],
) -> Traced
    requires { PortedIn starts.now ends.now nexts.now firsts.old flat.old lengths.old }
    ensures { Written (ported_wires (pairs starts.now ends.now))
        flat.old lengths.old flat.new lengths.new
        result.flat result.wires }
{
    keep_last(starts, firsts);
    tracing::trace_all(starts, ends, nexts, firsts, flat, lengths)
}

// Each position has the last hem edge that starts there.
fn keep_last(starts: &[u32], firsts: &mut [u32])
    requires { Startable starts.now firsts.old }
    ensures { firsts.new ≡ numbered 0 firsts.old starts.now }
{
    for (k, s) in starts.iter().enumerate() {
        firsts[*s as usize] = k as u32;
    }
}
