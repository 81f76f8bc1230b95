// Cases of the calls that go by the attributes of a mesh: compaction and merging.
use crate::cases;
use crate::cases::{Outcome, ROOM};
use crate::lent::lend;
use crate::list::Words;
use merging::Merged;
use mesh::Mesh;

// The calls, by the kind of their records.
pub const COMPACTION: u32 = 3;

pub const MERGING: u32 = 5;

pub const BY_CELL: u32 = 19;

// Compaction. It lends corners, positions, texture points, normals.
pub(crate) fn compaction<'a>(mesh: &Mesh<'_>, case: Words<'a>) -> Outcome<'a> {
    let mut next = cases::lists_from(case, 3);
    let mut c = [0u32; ROOM];
    let mut p = [0.0; ROOM];
    let mut t = [0.0; ROOM];
    let mut n = [0.0; ROOM];
    let r = compaction::remove_unused_attrs(
        mesh,
        lend(&mut next, &mut c),
        lend(&mut next, &mut p),
        lend(&mut next, &mut t),
        lend(&mut next, &mut n),
    );
    let said = cases::told(r.map(|of| [of.positions, of.textures, of.normals]));
    cases::answered(case, said)
        .hold(&c)
        .hold(&p)
        .hold(&t)
        .hold(&n)
}

// Merging. It lends corners. Both engines are asked the same and must answer the same; any other kind than that of the engine by cell is the plain one.
pub(crate) fn merging<'a>(mesh: &Mesh<'_>, kind: u32, case: Words<'a>) -> Outcome<'a> {
    let mut next = cases::lists_from(case, 3);
    let mut c = [0u32; ROOM];
    let r = merge(mesh, kind, case.float(), lend(&mut next, &mut c));
    cases::answered(case, (r.number, [r.positions, r.textures, r.normals])).hold(&c)
}

fn merge(mesh: &Mesh<'_>, kind: u32, tolerance: f64, newcorners: &mut [u32]) -> Merged {
    let Mesh {
        positions,
        textures,
        normals,
        corners,
        sizes,
    } = *mesh;
    if kind == BY_CELL {
        merging::put_together_by_cell(
            positions, textures, normals, corners, sizes, tolerance, newcorners,
        )
    } else {
        merging::put_together_same_attrs(
            positions, textures, normals, corners, sizes, tolerance, newcorners,
        )
    }
}
