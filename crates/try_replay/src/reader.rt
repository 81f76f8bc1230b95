// Cases of the two calls that read a file into the five lists of a mesh, which they are lent: the reader of panel files and that of scans.
use crate::cases;
use crate::cases::Outcome;
use crate::lent::lend;
use crate::list::Words;

// The kind of the records of the reader of scans.
pub const SCANNING: u32 = 18;

// The stated rooms: the full limits. No room of the list is larger.
const FLOATS: usize = mesh::POINT_NUMBERS;

const CORNERS: usize = mesh::CORNER_NUMBERS;

// Any other kind than that of scans is the reader of panel files.
pub(crate) fn ask<'a>(file: &[u8], kind: u32, case: Words<'a>) -> Outcome<'a> {
    let mut next = cases::lists_from(case, 5);
    let mut all_p = [0.0; FLOATS];
    let mut all_t = [0.0; FLOATS];
    let mut all_n = [0.0; FLOATS];
    let mut all_c = [0u32; CORNERS];
    let mut all_s = [0u32; CORNERS];
    let p = lend(&mut next, &mut all_p);
    let t = lend(&mut next, &mut all_t);
    let n = lend(&mut next, &mut all_n);
    let c = lend(&mut next, &mut all_c);
    let s = lend(&mut next, &mut all_s);
    let r = if kind == SCANNING {
        scanfile::read_scan(file, p, t, n, c, s)
    } else {
        panelfile::read_panel(file, p, t, n, c, s)
    };
    let counts = [r.positions, r.textures, r.normals, r.corners, r.faces];
    cases::answered(case, (r.number, counts))
        .hold(&all_p)
        .hold(&all_t)
        .hold(&all_n)
        .hold(&all_c)
        .hold(&all_s)
}
