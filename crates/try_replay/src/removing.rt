// Cases of the removal of folded faces, which lends three lists of u32: corners, sizes and origins.
use crate::cases;
use crate::cases::{Outcome, ROOM};
use crate::lent::lend;
use crate::list::Words;
use mesh::Mesh;

// The kind of its records.
pub const REMOVAL: u32 = 4;

pub(crate) fn ask<'a>(mesh: &Mesh<'_>, case: Words<'a>) -> Outcome<'a> {
    let mut next = cases::lists_from(case, 2);
    let mut c = [0u32; ROOM];
    let mut s = [0u32; ROOM];
    let mut o = [0u32; ROOM];
    let r = folded::remove_degenerate_faces(
        mesh,
        lend(&mut next, &mut c),
        lend(&mut next, &mut s),
        lend(&mut next, &mut o),
    );
    let said = cases::told(r.map(|of| [of.corners, of.faces]));
    cases::answered(case, said).hold(&c).hold(&s).hold(&o)
}
