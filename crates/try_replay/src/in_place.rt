// Cases of compaction in place. It has no records of its own: every case of compaction is put to it too, and must come out as the list
// says. Where compaction answers 9, since a list that it is lent is short, this call is lent a number list one short; else one of just its
// room. The mesh is read again, into lists that the call may change: what the list of answers has of a result must stand at their front,
// zero bits behind it, and after a refusal the mesh as it was.
use crate::cases::Outcome;
use crate::entry::Entry;
use crate::list::Words;
use crate::questions::Places;
use crate::{cases, lent};

// The row in which its cases count.
pub const IN_PLACE: u32 = 20;

pub(crate) fn ask<'a>(subject: Words<'a>, case: Words<'a>) -> Outcome<'a> {
    let places = Places::of(subject);
    let room = room_for(&places, case);
    let mut p = [0.0; 6160];
    let mut t = [0.0; 6160];
    let mut n = [0.0; 6160];
    let mut c = [0u32; 16400];
    let mut s = [0u32; 1376];
    let mut numbers = [0u32; 6160];
    let r = inplace::compact_in_place(
        lent::read(places.positions, &mut p),
        lent::read(places.textures, &mut t),
        lent::read(places.normals, &mut n),
        lent::read(places.corners, &mut c),
        lent::read(places.sizes, &mut s),
        lent::fill(&mut numbers, room, |i| u32::pattern(i)),
    );
    let counts = r.map(|of| [of.positions, of.textures, of.normals]);
    let said = cases::answered(case, cases::told(counts));
    let done = said.number == 0;
    let differs = lent::differs(&numbers, room, |i| {
        if done { 0 } else { u32::pattern(i) }
    });
    let with_c = hold(said.also(differs, said.end), &c, places.corners);
    let with_p = hold(with_c, &p, places.positions);
    let with_t = hold(with_p, &t, places.textures);
    hold(with_t, &n, places.normals)
}

// How many numbers are lent: one for each entry of the longest list, and one less where the list of answers has 9.
fn room_for(places: &Places<'_>, case: Words<'_>) -> usize {
    let positions = places.positions.count(0) / mesh::POINT_WIDTH;
    let textures = places.textures.count(0) / mesh::TEXEL_WIDTH;
    let normals = places.normals.count(0) / mesh::POINT_WIDTH;
    let n = positions.max(textures).max(normals);
    if case.word(2) == 9 {
        n.saturating_sub(1)
    } else {
        n
    }
}

// The outcome so far, with a list of the mesh whose words begin at `before`; what must stand at its front has its words where the outcome ends. Behind
// that stand zeros, and after a refusal the mesh as it was.
fn hold<'a, T: Entry>(found: Outcome<'a>, all: &[T], before: Words<'_>) -> Outcome<'a> {
    let answer = found.end.skip(1);
    let n = answer.count(0);
    let done = found.number == 0;
    let differs = lent::differs(all, before.count(0), |i| {
        if i < n {
            answer.number(i)
        } else if done {
            T::ZERO
        } else {
            before.number(i)
        }
    });
    found.also(differs || before.count(0) < n, answer.after::<T>())
}
