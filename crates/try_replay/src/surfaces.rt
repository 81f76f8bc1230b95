// Cases of smoothing, which is given the cosines beside its mesh. It lends positions, corners and sizes.
use crate::cases;
use crate::cases::{Outcome, ROOM};
use crate::lent::{lend, read};
use crate::list::Words;
use mesh::Mesh;

// The kind of its records, and of those that hold the cosines.
pub const SMOOTHING: u32 = 16;

pub const COSINES: u32 = 17;

// More than any list of cosines has.
const ANGLES: usize = 72;

// `cosines` is where those of pi/n begin; behind them stand those of 2·pi/n.
pub(crate) fn ask<'a>(mesh: &Mesh<'_>, cosines: Words<'_>, case: Words<'a>) -> Outcome<'a> {
    let mut next = cases::lists_from(case, 3);
    let mut ones = [0.0; ANGLES];
    let mut twos = [0.0; ANGLES];
    let mut p = [0.0; ROOM];
    let mut c = [0u32; ROOM];
    let mut s = [0u32; ROOM];
    let r = smoothing::loop_subdivision(
        mesh.positions,
        mesh.textures,
        mesh.normals,
        mesh.corners,
        mesh.sizes,
        read(cosines, &mut ones),
        read(cosines.after::<f64>(), &mut twos),
        lend(&mut next, &mut p),
        lend(&mut next, &mut c),
        lend(&mut next, &mut s),
    );
    cases::answered(case, (r.number, [r.positions, r.corners, r.faces]))
        .hold(&p)
        .hold(&c)
        .hold(&s)
}
