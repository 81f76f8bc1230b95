// Tries the writer on the longest file that a mesh can make, every list at its limit and every face with a mark, with exactly its room and with one
// byte less, also with a last coordinate that no corner uses and that is not finite, and on the largest faces that there are, without marks and with
// them; and the reader on what was written; and prints what each answers.
#![tactic(auto)]

const LESS: usize = saving::FILE - 1;

const LAST_COORDINATE: usize = mesh::POINT_NUMBERS - 1;

const LAST_TEXTURE: usize = mesh::TEXEL_NUMBERS - 1;

const LAST: usize = mesh::FACES - 1;

// 13 faces of 300 corners and one of 196 are 4,096 corners.
const FEWEST: usize = 14;

const LAST_OF_FEWEST: usize = FEWEST - 1;

const REST: u32 = 196;

fn main() {
    let mut less = [b'.'; LESS];
    write(b"one byte short", 0.5, 0.5, &mut less);
    write(b"one byte short, a NaN", f64::NAN, 0.5, &mut less);
    let mut file = [b'.'; saving::FILE];
    write(
        b"with its room, a texture point at infinity",
        0.5,
        f64::NEG_INFINITY,
        &mut file,
    );
    write(b"with its room", 0.5, 0.5, &mut file);
    read(&file);
    largest(b"faces of 300 corners", 0, &mut file);
    largest(b"marked faces of 300 corners", 1, &mut file);
}

// The largest faces, written and read.
fn largest(what: &[u8], number: u32, file: &mut [u8]) {
    let length = write_largest(what, number, file).min(file.len());
    read(&file[..length]);
}

// 1,364 triangles and a quadrangle are 4,096 corners, each of which has a mark. The last coordinate of positions and normals is x, that of texture
// points u.
fn write(what: &[u8], x: f64, u: f64, out: &mut [u8]) {
    let mut points = [0.5; mesh::POINT_NUMBERS];
    points[LAST_COORDINATE] = x;
    let mut textures = [0.5; mesh::TEXEL_NUMBERS];
    textures[LAST_TEXTURE] = u;
    let corners = [1u32; mesh::CORNER_NUMBERS];
    let mut sizes = [3u32; mesh::FACES];
    sizes[LAST] = 4;
    write_mesh(what, &points, &textures, &corners, &sizes, out);
}

// As many corners in as few faces as there can be; each number of a corner is this one, its mark too: kind 5, or 6 where it is not 0.
fn write_largest(what: &[u8], number: u32, out: &mut [u8]) -> usize {
    let points = [0.5; mesh::POINT_NUMBERS];
    let textures = [0.5; mesh::TEXEL_NUMBERS];
    let corners = [number; mesh::CORNER_NUMBERS];
    let mut sizes = [mesh::RING as u32; FEWEST];
    sizes[LAST_OF_FEWEST] = REST;
    write_mesh(what, &points, &textures, &corners, &sizes, out)
}

// The writer: its number, the file's length, which is answered, and how many bytes at the front of the lent list are as they were. The points are
// positions and normals.
fn write_mesh(
    what: &[u8],
    points: &[f64],
    textures: &[f64],
    corners: &[u32],
    sizes: &[u32],
    out: &mut [u8],
) -> usize {
    let r = saving::write_panel(points, textures, points, corners, sizes, out);
    let untouched = out.iter().take_while(|byte| **byte == b'.').count();
    show(what, &[r.number as usize, r.length, untouched]);
    r.length
}

// The reader: its number, and the counts of positions, texture points, normals, corners and faces.
fn read(file: &[u8]) {
    let mut positions = [0.0; mesh::POINT_NUMBERS];
    let mut textures = [0.0; mesh::TEXEL_NUMBERS];
    let mut normals = [0.0; mesh::POINT_NUMBERS];
    let mut corners = [0u32; mesh::CORNER_NUMBERS];
    let mut sizes = [0u32; mesh::FACES];
    let r = panelfile::read_panel(
        file,
        &mut positions,
        &mut textures,
        &mut normals,
        &mut corners,
        &mut sizes,
    );
    show(
        b"read again",
        &[
            r.number as usize,
            r.positions,
            r.textures,
            r.normals,
            r.corners,
            r.faces,
        ],
    );
}

// A line: what was tried, and the numbers that it gave, each behind a space.
fn show(what: &[u8], numbers: &[usize]) {
    io::write_all(1, what);
    for n in numbers {
        io::write_all(1, b" ");
        io::print_decimal(1, *n as u64);
    }
    io::write_all(1, b"\n");
}
