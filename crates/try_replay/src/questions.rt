// One case: the mesh that it is about is read from the list, and the call is asked.
use crate::cases::{About, Outcome};
use crate::list::Words;
use crate::{attributes, by_faces, bytes, files, in_place, lent, reader, surfaces};
use mesh::Mesh;

// The kind of a record that holds a mesh, and of one that holds a panel file or a scan. The modules that ask the calls have the kinds of theirs.
pub const MESH: u32 = 0;

pub const FILE: u32 = 12;

// Where the words of the five lists of a mesh begin.
#[derive(Clone, Copy)]
pub struct Places<'a> {
    pub positions: Words<'a>,
    pub textures: Words<'a>,
    pub normals: Words<'a>,
    pub corners: Words<'a>,
    pub sizes: Words<'a>,
}

impl<'a> Places<'a> {
    pub(crate) fn of(subject: Words<'a>) -> Places<'a> {
        let textures = subject.after::<f64>();
        let normals = textures.after::<f64>();
        let corners = normals.after::<f64>();
        Places {
            positions: subject,
            textures,
            normals,
            corners,
            sizes: corners.after::<u32>(),
        }
    }
}

// Asks the call of a record of this kind.
pub(crate) fn ask<'a>(about: About<'a>, kind: u32, case: Words<'a>) -> Outcome<'a> {
    match kind {
        files::READING | reader::SCANNING | files::CLEANING => files::ask(
            about.subject,
            kind,
            case,
        ),
        in_place::IN_PLACE => in_place::ask(about.subject, case),
        _ => read_mesh(about, kind, case),
    }
}

fn read_mesh<'a>(about: About<'a>, kind: u32, case: Words<'a>) -> Outcome<'a> {
    let places = Places::of(about.subject);
    let mut p = [0.0; 6160];
    let mut t = [0.0; 6160];
    let mut n = [0.0; 6160];
    let mut c = [0u32; 16400];
    let mut s = [0u32; 1376];
    let mesh = Mesh {
        positions: lent::read(places.positions, &mut p),
        textures: lent::read(places.textures, &mut t),
        normals: lent::read(places.normals, &mut n),
        corners: lent::read(places.corners, &mut c),
        sizes: lent::read(places.sizes, &mut s),
    };
    ask_of(&mesh, about.cosines, kind, case)
}

// Hands the case to the module that has the call.
fn ask_of<'a>(mesh: &Mesh<'_>, cosines: Words<'_>, kind: u32, case: Words<'a>) -> Outcome<'a> {
    match kind {
        surfaces::SMOOTHING => surfaces::ask(mesh, cosines, case),
        bytes::WRITING => bytes::write_panel(mesh, case),
        attributes::COMPACTION => attributes::compaction(mesh, case),
        attributes::MERGING | attributes::BY_CELL => attributes::merging(mesh, kind, case),
        _ => by_faces::ask(mesh, kind, case),
    }
}
