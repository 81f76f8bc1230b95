// Rows 1 to 5 of the table of numbers returned: what is tried, and the number that the mesh earns.
use crate::fronts::front;
use crate::show;
use mesh::MISSING;

pub(crate) fn rows() {
    too_many_coordinates();
    too_many_corners();
    no_whole_entries();
    no_sum();
    sizes_outside();
    sizes_ungrouped();
    indices_beyond();
    no_position();
    rows_in_order();
}

// 1: a list holds more numbers than limit times width, or there are over 1,365 face sizes.
fn too_many_coordinates() {
    coordinates(b"1 position numbers 6144", 6144, 0, 0);
    coordinates(b"1 position numbers 6145", 6145, 0, 0);
    coordinates(b"1 texture numbers 4096", 0, 4096, 0);
    coordinates(b"1 texture numbers 4097", 0, 4097, 0);
    coordinates(b"1 normal numbers 6144", 0, 0, 6144);
    coordinates(b"1 normal numbers 6145", 0, 0, 6145);
}

fn too_many_corners() {
    full(b"1 corner numbers 16384, sizes 1365", 16384, 1365);
    full(b"1 corner numbers 16385", 16385, 1365);
    full(b"1 sizes 1366", 16384, 1366);
}

// 2: a list's length is no multiple of its width, or the sizes don't add up to the corners.
fn no_whole_entries() {
    coordinates(b"2 nothing", 0, 0, 0);
    coordinates(b"2 position numbers 3", 3, 0, 0);
    coordinates(b"2 position numbers 4", 4, 0, 0);
    coordinates(b"2 texture numbers 2", 0, 2, 0);
    coordinates(b"2 texture numbers 3", 0, 3, 0);
    coordinates(b"2 normal numbers 3", 0, 0, 3);
    coordinates(b"2 normal numbers 4", 0, 0, 4);
}

fn no_sum() {
    face(b"2 size 3 over 12 corner numbers", 3, 12);
    face(b"2 size 3 over 13 corner numbers", 3, 13);
    face(b"2 size 3 over 16 corner numbers", 3, 16);
    face(b"2 size 4 over 12 corner numbers", 4, 12);
    full(b"2 no size over 12 corner numbers", 12, 0);
    two(
        b"2 sizes 4294967295 5 over 16 corner numbers",
        4294967295,
        5,
        16,
    );
}

// 3: a face size lies outside 3 to 300. 32 and 33 are apart only in a panel file.
fn sizes_outside() {
    face(b"3 size 2", 2, 8);
    face(b"3 size 3", 3, 12);
    face(b"3 size 32", 32, 128);
    face(b"3 size 33", 33, 132);
    face(b"3 size 299", 299, 1196);
    face(b"3 size 300", 300, 1200);
    face(b"3 size 301", 301, 1204);
}

// 4: sizes aren't grouped: triangles first, then quadrangles, then larger faces.
fn sizes_ungrouped() {
    faces(b"4 sizes 3 4 5", 48, &[3, 4, 5]);
    two(b"4 sizes 6 5", 6, 5, 44);
    two(b"4 sizes 4 3", 4, 3, 28);
    two(b"4 sizes 5 4", 5, 4, 36);
    two(b"4 sizes 5 3", 5, 3, 32);
}

// 5: a position index, or a texture or normal index that isn't missing, is not below its list's count: 4, 3 and 2 here.
fn indices_beyond() {
    corner(b"5 position 3 of 4", 3, 0, 0);
    corner(b"5 position 4 of 4", 4, 0, 0);
    corner(b"5 position missing", MISSING, 0, 0);
    corner(b"5 texture 2 of 3", 0, 2, 0);
    corner(b"5 texture 3 of 3", 0, 3, 0);
    corner(b"5 texture missing", 0, MISSING, 0);
    corner(b"5 normal 1 of 2", 0, 0, 1);
    corner(b"5 normal 2 of 2", 0, 0, 2);
    corner(b"5 normal missing", 0, 0, MISSING);
}

// A triangle over no position, texture point or normal at all.
fn no_position() {
    let none = [0.0; 1];
    let empty = front(&none, 0);
    let corners = [
        0, MISSING, MISSING, 0, 0, MISSING, MISSING, 0, 0, MISSING, MISSING, 0,
    ];
    earned_over(b"5 position 0 of 0", empty, empty, empty, &corners, &[3]);
}

// Lists that earn two numbers answer the lower. Index 1 is beyond each list.
fn rows_in_order() {
    coordinates(b"1 before 2, position numbers 6145", 6145, 0, 0);
    let corners = [1; 1216];
    earned(
        b"2 before 3, size 2 over 12 corner numbers",
        front(&corners, 12),
        &[2],
    );
    earned(b"3 before 4, sizes 301 3", &corners, &[301, 3]);
    earned(b"4 before 5, sizes 4 3", front(&corners, 28), &[4, 3]);
}

// ---- what is tried

// Lists of p, t and n coordinates, all of them 0, and no faces.
fn coordinates(what: &[u8], p: usize, t: usize, n: usize) {
    let many = [0.0; 6145];
    let none = [0; 1];
    let empty = front(&none, 0);
    let positions = front(&many, p);
    let textures = front(&many, t);
    let normals = front(&many, n);
    earned_over(what, positions, textures, normals, empty, empty);
}

// c corner numbers, and s sizes of triangles, but that the one with number 1,364 is a quadrangle's: 1,365 of them have 4,096 corners.
fn full(what: &[u8], c: usize, s: usize) {
    let mut sizes = [3; 1366];
    sizes[1364] = 4;
    faces(what, c, front(&sizes, s));
}

// One face, and two, and c corner numbers.
fn face(what: &[u8], size: u32, c: usize) {
    faces(what, c, &[size]);
}

fn two(what: &[u8], first: u32, second: u32, c: usize) {
    faces(what, c, &[first, second]);
}

// c corner numbers that are all 0.
fn faces(what: &[u8], c: usize, sizes: &[u32]) {
    let corners = [0; 16385];
    earned(what, front(&corners, c), sizes);
}

// Corners and sizes over one position, texture point and normal.
fn earned(what: &[u8], corners: &[u32], sizes: &[u32]) {
    let one = [0.0; 3];
    earned_over(what, &one, front(&one, 2), &one, corners, sizes);
}

// The number that five lists earn.
fn earned_over(
    what: &[u8],
    positions: &[f64],
    textures: &[f64],
    normals: &[f64],
    corners: &[u32],
    sizes: &[u32],
) {
    let number = mesh::number(positions, textures, normals, corners, sizes);
    show::line(what, number as usize, &[]);
}

// A triangle whose last corner has these indices, over 4 positions, 3 texture points and 2 normals. Two corners have a mark, which is no index.
fn corner(what: &[u8], position: u32, texture: u32, normal: u32) {
    let many = [0.0; 12];
    let six = front(&many, 6);
    let corners = [0, 0, 0, 0, 1, 1, 1, 4, position, texture, normal, MISSING];
    earned_over(what, &many, six, six, &corners, &[3]);
}
