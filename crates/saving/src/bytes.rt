// One record after the other. Each function stores bytes from a place on and answers the place behind them.
ghost use Rattle.std.specs.Prelude.{◌≡◌, map, ◌+◌, ◌/◌, ◌≤◌, length};
ghost use Rattle.lists.specs.Lists.{each, sum};
ghost use Rattle.little.specs.Little.{word_bytes};
ghost use Rattle.mesh.specs.Limits.{corner_numbers, corner_limit};
ghost use Rattle.mesh.specs.Mesh.{corners_in, rings};
ghost use Rattle.mesh.specs.Face.{Sound};
ghost use Rattle.records.specs.Records.{any_mark};
ghost use Rattle.written.specs.Pieces.{wide, face_kind, count_bytes, count_length, coordinate_bytes, corner_bytes, header_of, body_length, face_bytes};
ghost use Rattle.written.specs.Parts.{entry_record, first_rows, face_record};
ghost use Rattle.saving.specs.Working.{Stored, Fits, Coordinates, AnEntry, Entries, said_width, ACount, AFace, Faces};

// ---- parts of a record

// A header: the length of a body, and its kind.
pub fn put_header(n: u32, kind: u32, out: &mut [u8], at: usize) -> usize
    requires { at + 4 ≤ length out.old }
    ensures { Stored (header_of n kind) out.old out.new at result }
{
    little::put_half(out, at, n);
    little::put_half(out, at + 2, kind);
    at + 4
}

// Coordinates: the eight bytes of the bits of each.
fn put_coordinates(s: &[f64], out: &mut [u8], at: usize) -> usize
    requires { Coordinates s.now out.old at }
    ensures { Stored (each coordinate_bytes s.now) out.old out.new at result }
{
    let mut to = at;
    for x in s {
        little::put_long(out, to, x.to_bits());
        to += 8;
    }
    to
}

// Numbers of four bytes.
fn put_words(s: &[u32], out: &mut [u8], at: usize) -> usize
    requires { Fits (each word_bytes s.now) out.old at }
    ensures { Stored (each word_bytes s.now) out.old out.new at result }
{
    let mut to = at;
    for x in s {
        little::put_word(out, to, *x);
        to += 4;
    }
    to
}

// ---- positions, texture points and normals

// The record of one of them.
fn put_entry(part: &[f64], kind: u32, out: &mut [u8], at: usize) -> usize
    requires { AnEntry kind part.now out.old at }
    ensures { Stored (entry_record kind part.now) out.old out.new at result }
{
    let a = put_header((8 * part.len()) as u32, kind, out, at);
    put_coordinates(part, out, a)
}

// A record for each entry of a list, W coordinates wide.
pub fn put_entries<const W: usize>(s: &[f64], kind: u32, out: &mut [u8], at: usize) -> usize
    requires { Entries W kind s.now out.old at }
    ensures { Stored (each (entry_record kind) (first_rows W (length s.now / W) s.now)) out.old out.new at result }
{
    let (entries, _) = s.as_chunks::<W>();
    let mut to = at;
    for entry in entries {
        to = put_entry(entry, kind, out, to);
    }
    to
}

// ---- faces

// How many numbers of a corner stand before its mark.
const INDEX_WIDTH: usize = 3;

// Whether any corner of a face has a mark.
#[tactic(auto, unfolding(records::specs::Records::any_mark))]
fn any_mark(corners: &[[u32; mesh::WIDTH]]) -> bool
    ensures { result ≡ any_mark corners.now }
{
    corners.iter().any(|corner| corner[INDEX_WIDTH] != 0)
}

// Whether a face of n corners is wide: kind 4 does not hold it.
fn is_wide(marked: bool, n: usize) -> bool
    ensures { result ≡ wide marked n }
{
    marked || records::BYTE_FACE < n
}

// The kind of a face of n corners.
fn face_kind(marked: bool, n: usize) -> u32
    ensures { result ≡ face_kind marked (wide marked n) }
{
    if marked {
        records::MARKED_KIND
    } else if is_wide(marked, n) {
        records::WIDE_KIND
    } else {
        records::BYTE_KIND
    }
}

// How many bytes its count has.
fn count_length(marked: bool, n: usize) -> usize
    ensures { result ≡ count_length (wide marked n) }
{
    if is_wide(marked, n) {
        records::WIDE_COUNT
    } else {
        records::BYTE_COUNT
    }
}

// How many bytes its body has.
fn body_length(marked: bool, n: usize) -> usize
    requires { n ≤ corner_limit }
    ensures { result ≡ body_length marked n }
{
    records::corner_place(marked, count_length(marked, n), n)
}

// How many bytes the record of a face has.
fn face_length(part: &[u32]) -> usize
    requires { length part.now ≤ corner_numbers }
    ensures { result ≡ face_bytes (corners_in part.now) }
{
    let (corners, _) = part.as_chunks::<{ mesh::WIDTH }>();
    records::HEADER_LENGTH + body_length(any_mark(corners), corners.len())
}

// How many the records of all faces have.
pub fn face_lengths(corners: &[u32], sizes: &[u32]) -> usize
    requires { Sound corners.now sizes.now }
    ensures { result ≡ sum (map face_bytes (rings sizes.now corners.now)) }
{
    let mut total: usize = 0;
    let mut from: usize = 0;
    for (k, n) in sizes.iter().enumerate() {
        let face = mesh::face_at(corners, sizes, k, from);
        total += face_length(face);
        from += *n as usize;
    }
    total
}

// Its count.
#[tactic(auto, unfolding(written::specs::Pieces::count_bytes))]
fn put_count(marked: bool, n: usize, out: &mut [u8], at: usize) -> usize
    requires { ACount marked n out.old at }
    ensures { Stored (count_bytes (wide marked n) n) out.old out.new at result }
{
    if is_wide(marked, n) {
        little::put_half(out, at, n as u32);
        at + records::WIDE_COUNT
    } else {
        out[at] = n as u8;
        at + records::BYTE_COUNT
    }
}

// How many numbers of each corner are said.
fn said_width(marked: bool) -> usize
    ensures { result ≡ said_width marked }
{
    if marked { mesh::WIDTH } else { INDEX_WIDTH }
}

// Its corners.
fn put_corners(marked: bool, corners: &[[u32; mesh::WIDTH]], out: &mut [u8], at: usize) -> usize
    requires { Fits (each (corner_bytes marked) corners.now) out.old at }
    ensures { Stored (each (corner_bytes marked) corners.now) out.old out.new at result }
{
    let numbers = said_width(marked);
    let mut to = at;
    for corner in corners {
        to = put_words(&corner[..numbers], out, to);
    }
    to
}

// The record of a face: a count n, then n corners.
fn put_face(part: &[u32], out: &mut [u8], at: usize) -> usize
    requires { AFace part.now out.old at }
    ensures { Stored (face_record (corners_in part.now)) out.old out.new at result }
{
    let (corners, _) = part.as_chunks::<{ mesh::WIDTH }>();
    let n = corners.len();
    let marked = any_mark(corners);
    let length = body_length(marked, n);
    let a = put_header(length as u32, face_kind(marked, n), out, at);
    let b = put_count(marked, n, out, a);
    put_corners(marked, corners, out, b)
}

// A record for each face, in their order.
pub fn put_faces(corners: &[u32], sizes: &[u32], out: &mut [u8], at: usize) -> usize
    requires { Faces corners.now sizes.now out.old at }
    ensures { Stored (each face_record (rings sizes.now corners.now)) out.old out.new at result }
{
    let mut to = at;
    let mut from: usize = 0;
    for (k, n) in sizes.iter().enumerate() {
        let face = mesh::face_at(corners, sizes, k, from);
        to = put_face(face, out, to);
        from += *n as usize;
    }
    to
}
