// `faces::push` on both sides of each of its limits: its number, and how many corners and faces it writes.
use crate::fronts::{front, front_mut};
use crate::show;

pub(crate) fn push_limits() {
    lengths();
    sums();
    sizes();
    rooms();
}

// 1: a list is over its limit.
fn lengths() {
    alike(b"push 1 corner numbers 16384", 16384, 32, 128);
    alike(b"push 1 corner numbers 16388", 16388, 32, 128);
    alike(b"push 1 corner numbers 15600", 15600, 300, 13);
    alike(b"push 1 sizes 1365", 5460, 1, 1365);
    alike(b"push 1 sizes 1366", 5464, 1, 1366);
}

// 2: the sizes don't add up to the corners.
fn sums() {
    alike(b"push 2 size 3 over 12 corner numbers", 12, 3, 1);
    alike(b"push 2 size 3 over 13 corner numbers", 13, 3, 1);
    alike(b"push 2 size 3 over 16 corner numbers", 16, 3, 1);
}

// 3: more than 300 corners. Fewer than three are dropped, and any order is taken.
fn sizes() {
    alike(b"push 3 size 32", 128, 32, 1);
    alike(b"push 3 size 33", 132, 33, 1);
    alike(b"push 3 size 300", 1200, 300, 1);
    alike(b"push 3 size 301", 1204, 301, 1);
    alike(b"push 3 size 2", 8, 2, 1);
    faces(b"push 3 sizes 5 2 4 3", 56, &[5, 2, 4, 3]);
}

// 9: a lent list is shorter than the list that it is made from.
fn rooms() {
    lent(b"push 9 with its room", 12, 2);
    lent(b"push 9 corners short", 11, 2);
    lent(b"push 9 sizes short", 12, 1);
}

// c corner numbers, and so many faces of one size.
fn alike(what: &[u8], c: usize, size: u32, count: usize) {
    let sizes = [size; 1366];
    faces(what, c, front(&sizes, count));
}

// c corner numbers that are all 0, with room for any result.
fn faces(what: &[u8], c: usize, sizes: &[u32]) {
    let corners = [0; 16388];
    let mut newcorners = [0; 16388];
    let mut newsizes = [0; 1366];
    pushed(
        what,
        front(&corners, c),
        sizes,
        &mut newcorners,
        &mut newsizes,
    );
}

// A triangle and a face without corners, with room for a corner numbers and b sizes.
fn lent(what: &[u8], a: usize, b: usize) {
    let mut newcorners = [0; 12];
    let mut newsizes = [0; 2];
    pushed(
        what,
        &[0; 12],
        &[3, 0],
        front_mut(&mut newcorners, a),
        front_mut(&mut newsizes, b),
    );
}

fn pushed(what: &[u8], corners: &[u32], sizes: &[u32], c: &mut [u32], s: &mut [u32]) {
    let r = faces::push(corners, sizes, c, s);
    show::answer(what, r.map(|of| [of.corners, of.faces]));
}
