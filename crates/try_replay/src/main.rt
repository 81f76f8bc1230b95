// Replays the list of answers that stands in the file stdin beside src/: each case is put to the product's own public functions, over lent
// lists that are filled with a pattern, and the whole answer is compared, number, counts, every element, and the room past the
// result. It prints for each call how many cases there were, how many by number, and how many differed: none may.
//
// The list was made by the oracle, from the Rust itself and from a second reading of document 01 (oracle/README.md); README.md has
// its format, and how this program was seen to fail. Here the records are gone through; `list` reads the list, `entry` has what its kinds of numbers
// differ in, `lent` fills a list that is lent and holds it to the answer afterwards, `cases` has what the cases of all calls share, `questions` puts a
// case to its call, by `by_faces`, `attributes`, `in_place`, `surfaces` and `files`, and `tally` counts how the cases came out.
#![tactic(auto)]

mod attributes;
mod by_faces;
mod bytes;
mod cases;
mod entry;
mod files;
mod in_place;
mod lent;
mod list;
mod pairs;
mod questions;
mod reader;
mod removing;
mod surfaces;
mod tally;

use cases::About;
use list::Words;
use tally::{ROWS, Row};

fn main() {
    let mut all = [0u8; 2097152];
    run(&mut all);
}

// Reads the list, replays it and prints what came of it.
fn run(all: &mut [u8]) {
    let n = io::read_full(0, all);
    let (list, rest) = all[..n].as_chunks::<4>();
    let mut rows = [Row::EMPTY; ROWS];
    let whole = replay(Words::of(list), &mut rows) && rest.is_empty();
    tally::print(&rows);
    if !whole {
        io::write_all(1, b"the list is damaged\n");
    }
}

// Goes through the records; false where the list ends inside one.
fn replay(list: Words<'_>, rows: &mut [Row; ROWS]) -> bool {
    let end = list.left();
    let mut at = 0;
    let mut about = About {
        subject: list,
        cosines: list,
    };
    while at < end {
        let here = list.skip(at);
        let n = here.count(0);
        if n == 0 || n >= end - at {
            return false;
        }
        at += n + 1;
        record(here.word(1), here.skip(2), list.skip(at), &mut about, rows);
    }
    true
}

// One record of a kind: a mesh, a file or cosines, which the cases after it are about, or a case; one of compaction is put to compaction in place too.
// Its words begin at `place`.
fn record<'a>(
    kind: u32,
    place: Words<'a>,
    next: Words<'a>,
    about: &mut About<'a>,
    rows: &mut [Row; ROWS],
) {
    match kind {
        questions::MESH | questions::FILE => about.subject = place,
        surfaces::COSINES => about.cosines = place,
        attributes::COMPACTION => {
            ask(kind, place, next, *about, rows);
            ask(in_place::IN_PLACE, place, next, *about, rows);
        }
        _ => ask(kind, place, next, *about, rows),
    }
}

// Asks a case of a call, and counts how it came out; it must end where the next record begins.
fn ask<'a>(kind: u32, case: Words<'a>, next: Words<'a>, about: About<'a>, rows: &mut [Row; ROWS]) {
    let found = questions::ask(about, kind, case);
    let elsewhere = found.end.at != next.at;
    tally::add(rows, kind, found.also(elsewhere, next));
}
