// The part of a face: how many numbers it has. The lists earn 0, or the number that is named.
use crate::fronts::front;
use crate::show;

pub(crate) fn parts() {
    of_two(b"part of face 0 of 2", 28, 3, 4, 0);
    of_two(b"part of face 1 of 2", 28, 3, 4, 1);
    of_two(b"part of face 2 of 2", 28, 3, 4, 2);
    part(b"part where they earn 1", 32, &[3; 1366], 0);
    refused();
}

fn refused() {
    of_two(b"part where they earn 2", 32, 3, 4, 0);
    of_two(b"part where they earn 3", 20, 3, 2, 0);
    of_two(b"part where they earn 4", 28, 4, 3, 0);
    part_of(b"part where they earn 5", &[4; 12], &[3], 0);
}

// Of two faces, over c corner numbers.
fn of_two(what: &[u8], c: usize, first: u32, second: u32, k: usize) {
    part(what, c, &[first, second], k);
}

// Of c corner numbers that are all 0.
fn part(what: &[u8], c: usize, sizes: &[u32], k: usize) {
    let corners = [0; 32];
    part_of(what, front(&corners, c), sizes, k);
}

// Over one position, texture point and normal.
fn part_of(what: &[u8], corners: &[u32], sizes: &[u32], k: usize) {
    let one = [0.0; 3];
    let face = mesh::face(&one, front(&one, 2), &one, corners, sizes, k);
    show::line(what, face.len(), &[]);
}
