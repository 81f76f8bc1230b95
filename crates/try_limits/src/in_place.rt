// 9: the number list of compaction in place is shorter than the longest list of attributes, whichever it is. With exactly its room, and with one
// entry less: the number, and the counts of positions, texture points and normals.
use crate::fronts::front_mut;
use crate::show;
use mesh::MISSING;

pub(crate) fn number_rooms() {
    longest_one();
    full();
}

// One of the three lists has six entries, the others two.
fn longest_one() {
    compacted(b"9 in place, six positions, room 6", 18, 4, 6, 6);
    compacted(b"9 in place, six positions, room 5", 18, 4, 6, 5);
    compacted(b"9 in place, six texture points, room 6", 6, 12, 6, 6);
    compacted(b"9 in place, six texture points, room 5", 6, 12, 6, 5);
    compacted(b"9 in place, six normals, room 6", 6, 4, 18, 6);
    compacted(b"9 in place, six normals, room 5", 6, 4, 18, 5);
}

// All three lists at their limits.
fn full() {
    compacted(
        b"9 in place, 2048 of each, room 2048",
        6144,
        4096,
        6144,
        2048,
    );
    compacted(
        b"9 in place, 2048 of each, room 2047",
        6144,
        4096,
        6144,
        2047,
    );
}

// Lists of so many numbers, room for so many numbers of entries, and one triangle, of two positions, one texture point and one normal.
fn compacted(what: &[u8], p: usize, t: usize, n: usize, room: usize) {
    let mut positions = [0.0; 6144];
    let mut textures = [0.0; 4096];
    let mut normals = [0.0; 6144];
    let mut corners = [1, 1, MISSING, 7, 0, MISSING, 1, 0, 1, 1, 1, MISSING];
    let mut numbers = [0; 2048];
    let r = inplace::compact_in_place(
        front_mut(&mut positions, p),
        front_mut(&mut textures, t),
        front_mut(&mut normals, n),
        &mut corners,
        &[3],
        front_mut(&mut numbers, room),
    );
    show::answer(what, r.map(|of| [of.positions, of.textures, of.normals]));
}
