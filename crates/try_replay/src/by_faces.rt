// Cases of the calls that go by faces: those that lend nothing, mesh_number, face and shell_condition, in `removing` the one that lends
// three lists of u32, and in `pairs` those that lend two.
use crate::cases::Outcome;
use crate::list::Words;
use crate::{cases, pairs, removing};
use edges::{Judged, ShellCondition};
use mesh::Mesh;

// The calls that lend nothing, by the kind of their records; `removing` and `pairs` have the others.
const MESH_NUMBER: u32 = 1;

const FACE: u32 = 2;

const VERDICT: u32 = 6;

// What stands for a verdict that is not answered.
const NONE: usize = 4294967295;

// Asks the call of a record of this kind.
pub(crate) fn ask<'a>(mesh: &Mesh<'_>, kind: u32, case: Words<'a>) -> Outcome<'a> {
    match kind {
        MESH_NUMBER => mesh_number(mesh, case),
        FACE => face(mesh, case),
        VERDICT => shell_condition(mesh, case),
        removing::REMOVAL => removing::ask(mesh, case),
        _ => pairs::ask(mesh, kind, case),
    }
}

// The number of a mesh.
fn mesh_number<'a>(mesh: &Mesh<'_>, case: Words<'a>) -> Outcome<'a> {
    let number = mesh::number(
        mesh.positions,
        mesh.textures,
        mesh.normals,
        mesh.corners,
        mesh.sizes,
    );
    cases::answered(case, (number, []))
}

// The part of a face: its length, and that it holds what the list of corners has from its start on; an empty part starts at 0. The call has no
// number: 0 stands in the list.
fn face<'a>(mesh: &Mesh<'_>, case: Words<'a>) -> Outcome<'a> {
    let part = mesh::face(
        mesh.positions,
        mesh.textures,
        mesh.normals,
        mesh.corners,
        mesh.sizes,
        case.long() as usize,
    );
    let start = case.count(3);
    let begins = if part.is_empty() { 0 } else { start };
    let said = cases::answered(case, (0, [begins, part.len()]));
    let stands = match mesh.corners.get(start..) {
        Some(rest) => rest.starts_with(part),
        None => false,
    };
    said.also(!stands, said.end)
}

// The verdict.
fn shell_condition<'a>(mesh: &Mesh<'_>, case: Words<'a>) -> Outcome<'a> {
    let answer = edges::shell_condition(
        mesh.positions,
        mesh.textures,
        mesh.normals,
        mesh.corners,
        mesh.sizes,
    );
    let said = match answer {
        Judged::Found(ShellCondition::Irregular) => (0, [0]),
        Judged::Found(ShellCondition::Regular) => (0, [1]),
        Judged::Found(ShellCondition::Oriented) => (0, [2]),
        Judged::Found(ShellCondition::Closed) => (0, [3]),
        Judged::Refused(number) => (number, [NONE]),
    };
    cases::answered(case, said)
}
