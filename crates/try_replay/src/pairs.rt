// Cases of the calls that lend two lists of u32: hem edges, wires of both kinds, panels, and faces in any order.
use crate::cases;
use crate::cases::{Outcome, ROOM};
use crate::lent::lend;
use crate::list::Words;
use mesh::Mesh;

// The kinds of records.
const HEMS: u32 = 7;

const PORTED: u32 = 8;

const HOUSE: u32 = 9;

const PUSH: u32 = 13;

// A call by its kind; any other kind than these four is panels.
pub(crate) fn ask<'a>(mesh: &Mesh<'_>, kind: u32, case: Words<'a>) -> Outcome<'a> {
    match kind {
        PUSH => two_lists(case, 2, |a, b| push(mesh, case, a, b)),
        HEMS => two_lists(case, 1, |a, b| hem_edges(mesh, case, a, b)),
        PORTED => two_lists(case, 2, |a, b| ported_wires(mesh, case, a, b)),
        HOUSE => two_lists(case, 2, |a, b| house_wires(mesh, case, a, b)),
        _ => two_lists(case, 2, |a, b| components(mesh, case, a, b)),
    }
}

// A call of so many counts that is lent two lists, by the rooms of the case.
fn two_lists<'a, F: FnOnce(&mut [u32], &mut [u32]) -> Outcome<'a>>(
    case: Words<'a>,
    counts: usize,
    call: F,
) -> Outcome<'a>
    requires { F.IsAlwaysCallable call }
{
    let mut next = cases::lists_from(case, counts);
    let mut a = [0u32; ROOM];
    let mut b = [0u32; ROOM];
    let said = call(lend(&mut next, &mut a), lend(&mut next, &mut b));
    said.hold(&a).hold(&b)
}

// Faces in any order.
fn push<'a>(mesh: &Mesh<'_>, case: Words<'a>, a: &mut [u32], b: &mut [u32]) -> Outcome<'a> {
    let r = faces::push(mesh.corners, mesh.sizes, a, b);
    cases::answered(case, cases::told(r.map(|of| [of.corners, of.faces])))
}

// Hem edges.
fn hem_edges<'a>(mesh: &Mesh<'_>, case: Words<'a>, a: &mut [u32], b: &mut [u32]) -> Outcome<'a> {
    let r = edges::hem_edges(
        mesh.positions,
        mesh.textures,
        mesh.normals,
        mesh.corners,
        mesh.sizes,
        a,
        b,
    );
    cases::answered(case, (r.number, [r.count]))
}

// Wires as the Rust has them.
fn ported_wires<'a>(mesh: &Mesh<'_>, case: Words<'a>, a: &mut [u32], b: &mut [u32]) -> Outcome<'a> {
    let r = ported::extract_boundaries(
        mesh.positions,
        mesh.textures,
        mesh.normals,
        mesh.corners,
        mesh.sizes,
        a,
        b,
    );
    cases::answered(case, (r.number, [r.flat, r.wires]))
}

// Wires by the house's order.
fn house_wires<'a>(mesh: &Mesh<'_>, case: Words<'a>, a: &mut [u32], b: &mut [u32]) -> Outcome<'a> {
    let r = house::house_wires(
        mesh.positions,
        mesh.textures,
        mesh.normals,
        mesh.corners,
        mesh.sizes,
        a,
        b,
    );
    cases::answered(case, (r.number, [r.flat, r.wires]))
}

// Panels; the setting is given.
fn components<'a>(mesh: &Mesh<'_>, case: Words<'a>, a: &mut [u32], b: &mut [u32]) -> Outcome<'a> {
    let r = panels::components(
        mesh.positions,
        mesh.textures,
        mesh.normals,
        mesh.corners,
        mesh.sizes,
        case.word(0) != 0,
        a,
        b,
    );
    cases::answered(case, (r.number, [r.faces, r.panels]))
}
