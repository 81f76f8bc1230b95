// Cases of the calls that lend bytes: the writer and the cleaner.
use crate::cases;
use crate::cases::Outcome;
use crate::files::BYTES;
use crate::lent::lend;
use crate::list::Words;
use mesh::Mesh;

// The kind of the writer's records.
pub const WRITING: u32 = 14;

pub(crate) fn write_panel<'a>(mesh: &Mesh<'_>, case: Words<'a>) -> Outcome<'a> {
    let mut next = cases::lists_from(case, 1);
    let mut all = [0u8; BYTES];
    let r = saving::write_panel(
        mesh.positions,
        mesh.textures,
        mesh.normals,
        mesh.corners,
        mesh.sizes,
        lend(&mut next, &mut all),
    );
    cases::answered(case, (r.number, [r.length])).hold(&all)
}

pub(crate) fn clean_panel<'a>(file: &[u8], case: Words<'a>) -> Outcome<'a> {
    let mut next = cases::lists_from(case, 1);
    let mut all = [0u8; BYTES];
    let r = cleanfile::clean(file, lend(&mut next, &mut all));
    cases::answered(case, (r.number, [r.length])).hold(&all)
}
