// One record of the panel file: what it is, and how it is read.
//
// A record is a two-byte length, a two-byte kind and a body. Reading one answers a `Record`, which carries its numbers or its refusal; the
// corners of a face are read where they are wanted. What the records of a file come to is for the reader, crate panelfile. The definitions
// that a caller cites stand in specs/Records.antt.
#![tactic(auto)]

mod coordinates;

ghost use Rattle.std.specs.Prelude.{◌≡◌, true, ◌+◌, ◌*◌, ◌≤◌, ◌<◌, length};
ghost use Rattle.std.proofs.lemmas.List.Edits.{sets};
ghost use Rattle.floating.specs.Limits.{finite};
ghost use Rattle.lists.specs.Lists.{every, joined};
ghost use Rattle.mesh.specs.Limits.{width, ring_limit};
ghost use Rattle.little.specs.Little.{half, half_values, long_values};
ghost use Rattle.records.specs.Kinds.{number_of_kind, Decodes};
ghost use Rattle.records.specs.Lengths.{marked_length, corner_size, byte_count, wide_count};
ghost use Rattle.records.specs.Records as records;

use floating::{Point, Texel};

// The most corners that a byte can say, the most that a face of kind 4 may have, and the fewest of one of kind 5 and of kind 6.
const COUNT_MOST: usize = 255;

pub const BYTE_FACE: usize = 32;

const WIDE_LEAST: usize = 1 + BYTE_FACE;

const MARKED_LEAST: usize = mesh::LEAST_RING;

// How many bytes a header has, a coordinate, a corner, one with its mark, and the count of a face of kind 4 and of one of kind 5 or 6; the
// body of a position or a normal, of a texture point, the longest of a face of kind 4 and the shortest of one of kind 5 and of kind 6.
pub const HEADER_LENGTH: usize = 4;

const COORDINATE_LENGTH: usize = 8;

const CORNER_LENGTH: usize = 12;

const MARKED_LENGTH: usize = 16;

pub const BYTE_COUNT: usize = 1;

pub const WIDE_COUNT: usize = 2;

const POINT_LENGTH: usize = 3 * COORDINATE_LENGTH;

const TEXEL_LENGTH: usize = 2 * COORDINATE_LENGTH;

const LONGEST_FACE: usize = BYTE_COUNT + CORNER_LENGTH * COUNT_MOST;

const SHORTEST_WIDE: usize = WIDE_COUNT + CORNER_LENGTH * WIDE_LEAST;

const SHORTEST_MARKED: usize = WIDE_COUNT + MARKED_LENGTH * MARKED_LEAST;

// How many bytes the records have: that of a position or a normal, and that of a texture point.
pub const POINT_RECORD: usize = HEADER_LENGTH + POINT_LENGTH;

pub const TEXEL_RECORD: usize = HEADER_LENGTH + TEXEL_LENGTH;

// The numbers of the kinds of a face, whose count is a byte, or two, or two and its corners carry marks.
pub const BYTE_KIND: u32 = 4;

pub const WIDE_KIND: u32 = 5;

pub const MARKED_KIND: u32 = 6;

// What one record answers.
#[derive(Clone, Copy)]
pub enum Record {
    Position(Point),
    Texture(Texel),
    Normal(Point),
    // The place of its first corner, how many corners there are, and whether they carry marks.
    Face(usize, u32, bool),
    End,
    // Among the answers, and not in an `Err`: the theorems of specs/ name it so.
    Refused(u32),
}

// The kind of a record.
#[derive(Clone, Copy)]
enum Kind {
    End,
    Position,
    Texture,
    Normal,
    Face,
    WideFace,
    MarkedFace,
}

// A number that is no kind's.
#[derive(Clone, Copy)]
struct UnknownKind;

impl TryFrom<u32> for Kind {
    type Error = UnknownKind;

    ghost try_from_gives = { Decodes };

    fn try_from(number: u32) -> Result<Kind, UnknownKind> {
        match number {
            0 => Ok(Kind::End),
            1 => Ok(Kind::Position),
            2 => Ok(Kind::Texture),
            3 => Ok(Kind::Normal),
            BYTE_KIND => Ok(Kind::Face),
            WIDE_KIND => Ok(Kind::WideFace),
            MARKED_KIND => Ok(Kind::MarkedFace),
            _ => Err(UnknownKind),
        }
    }
}

// The record at a place of the file: header cut 11, kind 12, length 12, body cut 11, then its body.
#[tactic(auto, unfolding(crate::specs::Records::record_from))]
pub fn record_at(s: &[u8], at: usize) -> Record
    requires { at ≤ length s.now }
    ensures { result ≡ records.record_from s.now at }
{
    if s.len() - at < HEADER_LENGTH {
        return Record::Refused(11);
    }
    let n = little::half(s, at) as usize;
    let Ok(kind) = Kind::try_from(little::half(s, at + 2)) else {
        return Record::Refused(12);
    };
    if !fits(kind, n) {
        return Record::Refused(12);
    }
    let b = at + HEADER_LENGTH;
    if s.len() - b < n {
        return Record::Refused(11);
    }
    body(s, b, n, kind)
}

// Whether a body of n bytes is right for its kind.
#[tactic(auto, unfolding(crate::specs::Records::length_fits))]
fn fits(kind: Kind, n: usize) -> bool
    ensures { result ≡ records.length_fits (number_of_kind kind) n }
{
    match kind {
        Kind::End => n == 0,
        Kind::Position | Kind::Normal => n == POINT_LENGTH,
        Kind::Texture => n == TEXEL_LENGTH,
        Kind::Face => n <= LONGEST_FACE && n % CORNER_LENGTH == BYTE_COUNT,
        Kind::WideFace => SHORTEST_WIDE <= n && n % CORNER_LENGTH == WIDE_COUNT,
        Kind::MarkedFace => SHORTEST_MARKED <= n && n % MARKED_LENGTH == WIDE_COUNT,
    }
}

// The body of n bytes at b.
#[tactic(auto, unfolding(crate::specs::Records::body_from, crate::specs::Records::length_fits, crate::specs::Records::wide_face_from, crate::specs::Records::marked_face_from))]
fn body(s: &[u8], b: usize, n: usize, kind: Kind) -> Record
    requires within { b + n ≤ length s.now }
    requires fits { records.length_fits (number_of_kind kind) n ≡ true }
    ensures { result ≡ records.body_from s.now b n (number_of_kind kind) }
{
    match kind {
        Kind::End => Record::End,
        Kind::Position => {
            let p = coordinates::point_from(s, b);
            attribute(Record::Position(p), coordinates::point_is_finite(p))
        }
        Kind::Texture => {
            let t = coordinates::texel_from(s, b);
            attribute(Record::Texture(t), coordinates::texel_is_finite(t))
        }
        Kind::Normal => {
            let p = coordinates::point_from(s, b);
            attribute(Record::Normal(p), coordinates::point_is_finite(p))
        }
        Kind::Face => face(s, b, n),
        Kind::WideFace => wide_face(false, s, b, n),
        Kind::MarkedFace => wide_face(true, s, b, n),
    }
}

// A position, a texture point or a normal: a coordinate that is not finite gives 14.
#[tactic(auto, unfolding(crate::specs::Records::attribute))]
fn attribute(r: Record, is_finite: bool) -> Record
    requires { is_finite ≡ every finite (records.values_of r) }
    ensures { result ≡ records.attribute r }
{
    if is_finite { r } else { Record::Refused(14) }
}

// A face of kind 4, and one of kind 5 or 6.
#[tactic(auto, unfolding(crate::specs::Records::face_from))]
fn face(s: &[u8], b: usize, n: usize) -> Record
    requires { (byte_count ≤ n) × (b + n ≤ length s.now) }
    ensures { result ≡ records.face_from s.now b n }
{
    let count = little::wide(s[b]);
    counted(false, s, BYTE_COUNT, BYTE_FACE, count, b + BYTE_COUNT, n)
}

fn wide_face(marked: bool, s: &[u8], b: usize, n: usize) -> Record
    requires { (wide_count ≤ n) × (b + n ≤ length s.now) }
    ensures { result ≡ records.counted marked s.now wide_count ring_limit (half s.now b) (b + wide_count) n }
{
    let count = little::half(s, b);
    counted(marked, s, WIDE_COUNT, mesh::RING, count, b + WIDE_COUNT, n)
}

// A face whose count of w bytes says so many corners, the first of them at a: a count unlike the length's gives 12, no mark where marks are
// carried 12, a count over the limit 3.
#[tactic(auto, unfolding(crate::specs::Records::counted))]
fn counted(marked: bool, s: &[u8], w: usize, limit: usize, count: u32, a: usize, n: usize) -> Record
    requires { (w ≤ wide_count) × ((count < half_values) × (a + n ≤ w + length s.now)) }
    ensures { result ≡ records.counted marked s.now w limit count a n }
{
    let m = count as usize;
    if corner_place(marked, w, m) != n {
        return Record::Refused(12);
    }
    if lacks_marks(marked, s, a, m) {
        return Record::Refused(12);
    }
    if limit < m {
        return Record::Refused(3);
    }
    Record::Face(a, count, marked)
}

// Where corner k of a face begins whose first stands at a, and where a face of k corners ends.
pub fn corner_place(marked: bool, a: usize, k: usize) -> usize
    requires { a + corner_size marked * k < long_values }
    ensures { result ≡ a + corner_size marked * k }
{
    let size = if marked { MARKED_LENGTH } else { CORNER_LENGTH };
    a + size * k
}

// Whether marks are carried and all of them are 0.
fn lacks_marks(marked: bool, s: &[u8], a: usize, n: usize) -> bool
    requires { a + corner_size marked * n ≤ length s.now }
    ensures { result ≡ records.lacks_marks marked (records.ring_from marked s.now n a) }
{
    marked && !any_mark(s, a, n)
}

// Whether any of the n marks is not 0.
fn any_mark(s: &[u8], a: usize, n: usize) -> bool
    requires { a + marked_length * n ≤ length s.now }
    ensures { result ≡ records.any_mark (records.ring_from true s.now n a) }
{
    for k in 0..n {
        if little::word(s, a + MARKED_LENGTH * k + CORNER_LENGTH) != 0 {
            return true;
        }
    }
    false
}

// The mark at a place, 0 where none are carried.
fn mark_at(marked: bool, s: &[u8], i: usize) -> u32
    requires { marked ≡ true → i + 4 ≤ length s.now }
    ensures { result ≡ records.mark_from marked s.now i }
{
    if marked { little::word(s, i) } else { 0 }
}

// This paper's number for an answer: that of a refusal, 0 for every other.
pub fn number_of(r: Record) -> u32
    ensures { result ≡ records.number_of r }
{
    match r {
        Record::Refused(n) => n,
        _ => 0,
    }
}

// The n corners from place a of the file, behind `at` corners of the list.
pub fn put_ring(marked: bool, file: &[u8], a: usize, n: usize, out: &mut [u32], at: usize)
    requires { (a + corner_size marked * n ≤ length file.now) × (width * (at + n) ≤ length out.old) }
    ensures { out.new
        ≡ sets out.old (width * at) (joined (records.ring_from marked file.now n a)) }
{
    for k in 0..n {
        let from = corner_place(marked, a, k);
        put_corner(marked, file, from, out, mesh::WIDTH * (at + k));
    }
}

// The corner at a place of the file, at a place of the list.
fn put_corner(marked: bool, file: &[u8], from: usize, out: &mut [u32], to: usize)
    requires { (from + corner_size marked ≤ length file.now) × (to + width ≤ length out.old) }
    ensures { out.new ≡ sets out.old to (records.corner_from marked file.now from) }
{
    let corner = [
        little::word(file, from),
        little::word(file, from + 4),
        little::word(file, from + 8),
        mark_at(marked, file, from + CORNER_LENGTH),
    ];
    lists::put(&corner, out, to);
}
