// Cases of the calls on files: the readers of panel files and of scans, and the cleaner.
use crate::cases::Outcome;
use crate::entry::Entry;
use crate::list::Words;
use crate::{bytes, lent, reader};

// The calls, by the kind of their records.
pub const READING: u32 = 11;

pub const CLEANING: u32 = 15;

// More than any file of the list has bytes, and than any room for one.
pub const BYTES: usize = 262144;

// The cleaner and the readers: any other kind than the cleaner's is one of theirs.
pub(crate) fn ask<'a>(subject: Words<'_>, kind: u32, case: Words<'a>) -> Outcome<'a> {
    let mut all = [0u8; BYTES];
    let length = subject.count(1).saturating_add(subject.count(2));
    let file = lent::fill(&mut all, length, |i| file_byte(subject, i));
    if kind == CLEANING {
        bytes::clean_panel(file, case)
    } else {
        reader::ask(file, kind, case)
    }
}

// Byte i of the file: some bytes, several times over, and then others.
fn file_byte(subject: Words<'_>, i: usize) -> u8 {
    let repeated = subject.count(0);
    let filled = subject.count(1);
    let bytes = subject.skip(3);
    if i >= filled {
        bytes.skip(u8::words_for(repeated)).byte(i - filled)
    } else if repeated > 0 {
        bytes.byte(i % repeated)
    } else {
        0
    }
}
