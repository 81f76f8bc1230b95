// Copies of a file in which one coordinate has other bits.
ghost use Rattle.std.specs.Prelude.{◌+◌, ◌≤◌, ◌<◌, length};

use crate::copies;

// How many bytes a record's header has, and a coordinate.
const HEADER: usize = 4;

const COORDINATE: usize = 8;

// Every coordinate, record by record.
pub(crate) fn changes(file: &mut [u8], bits: u64, counts: &mut [u32]) {
    let mut at: usize = 0;
    while at < file.len() {
        in_record(file, at, bits, counts);
        at = copies::behind(file, at);
    }
}

// Every coordinate of the record at a place, as far as the file goes: of a position, a texture point or a normal; the other kinds have none.
fn in_record(file: &mut [u8], at: usize, bits: u64, counts: &mut [u32])
    requires { at < length file.old }
{
    if file.len() - at < HEADER {
        return;
    }
    if matches!(little::half(file, at + 2), 1..=3) {
        let body = at + HEADER;
        let bytes = (little::half(file, at) as usize).min(file.len() - body);
        for k in 0..bytes / COORDINATE {
            change(file, body + COORDINATE * k, bits, counts);
        }
    }
}

// The coordinate at a place.
fn change(file: &mut [u8], at: usize, bits: u64, counts: &mut [u32])
    requires { at + 8 ≤ length file.old }
{
    let old = little::long(file, at);
    little::put_long(file, at, bits);
    copies::tally(file, counts);
    little::put_long(file, at, old);
}
