// 9: a lent result list is shorter than its stated room. Compaction with exactly that room, and with one number less in one list; the
// sheet with exactly its room, and with one byte less.
use crate::fronts::{front, front_mut};
use crate::show;
use mesh::{MISSING, Mesh};

// Compaction: the number, and the counts of positions, texture points and normals.
pub(crate) fn compaction_rooms() {
    compacted(b"9 compaction with its room", 12, 18, 4, 6);
    compacted(b"9 compaction, corners short", 11, 18, 4, 6);
    compacted(b"9 compaction, positions short", 12, 17, 4, 6);
    compacted(b"9 compaction, texture points short", 12, 18, 3, 6);
    compacted(b"9 compaction, normals short", 12, 18, 4, 5);
}

// Six positions, two texture points and two normals; one triangle, of three positions, one texture point and one normal. With room for so many
// numbers of each list.
fn compacted(what: &[u8], c: usize, p: usize, t: usize, n: usize) {
    let many = [0.0; 18];
    let corners = [5, 1, MISSING, 7, 2, MISSING, 1, 0, 4, 1, 1, MISSING];
    let mut newcorners = [0; 12];
    let mut positions = [0.0; 18];
    let mut textures = [0.0; 4];
    let mut normals = [0.0; 6];
    let mesh = Mesh {
        positions: &many,
        textures: front(&many, 4),
        normals: front(&many, 6),
        corners: &corners,
        sizes: &[3],
    };
    let r = compaction::remove_unused_attrs(
        &mesh,
        front_mut(&mut newcorners, c),
        front_mut(&mut positions, p),
        front_mut(&mut textures, t),
        front_mut(&mut normals, n),
    );
    show::answer(what, r.map(|of| [of.positions, of.textures, of.normals]));
}

// The sheet: the number, its length, and how many bytes at the front of the lent list are as they were.
pub(crate) fn sheet_rooms() {
    printed(b"9 sheet, one byte short", &mut [b'.'; sheet::ROOM - 1]);
    printed(b"9 sheet with its room", &mut [b'.'; sheet::ROOM]);
}

// A file that has an end record and nothing else: no faces, so Closed.
fn printed(what: &[u8], out: &mut [u8]) {
    let r = sheet::sheet(&[0; 4], out);
    let untouched = out.iter().take_while(|byte| **byte == b'.').count();
    show::line(what, r.number as usize, &[r.length, untouched]);
}
