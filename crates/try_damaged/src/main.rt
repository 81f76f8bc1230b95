// Feeds damaged copies of good panel files to the reader, and prints only how often each number came back.
//
// The arguments name the files, which stand in data/. Of each file come every cut (its first 0, 1, 2, .. bytes, the whole file last),
// every change of one byte of a record's header to each of the 255 other values, and every change of one coordinate to a NaN, of two
// patterns, to an infinity, of either sign, and to the greatest finite number, of either sign. Every copy ends in a number.
#![tactic(auto)]

use std::{env, fs};

mod coordinates;
mod copies;

// How many bytes of a file are damaged at most.
const MOST: usize = 4096;

// How many numbers the table has, 0 among them.
const NUMBERS: usize = 20;

// The bits of what is not finite, and of the greatest numbers that are.
const BROKEN: [u64; 4] = [
    0x7ff8_0000_0000_0000,
    0xfff0_0000_0000_0001,
    0x7ff0_0000_0000_0000,
    0xfff0_0000_0000_0000,
];

const LARGE: [u64; 2] = [0x7fef_ffff_ffff_ffff, 0xffef_ffff_ffff_ffff];

fn main(rt: HostRuntime) -> std::io::Result<()> {
    for name in env::args(&rt)?.skip(1) {
        one_file(&rt, name.as_str())?;
    }
    Ok(())
}

// The file of this name.
fn one_file(rt: &HostRuntime, name: &str) -> std::io::Result<()> {
    let mut file = fs::read(rt, name)?;
    // What can't be written is passed over, here as in `print_counts`: the status tells only of files that can't be read.
    io::write_all(1, b"== ");
    io::write_all(1, name.as_bytes());
    io::write_all(1, b"\n");
    damage(&mut file);
    Ok(())
}

// The copies of a file: of its first bytes, where it is a long one.
fn damage(file: &mut [u8]) {
    let n = file.len().min(MOST);
    count_all(&mut file[..n]);
}

fn count_all(file: &mut [u8]) {
    count_bytes(file);
    count_coordinates(b"broken coordinate", file, &BROKEN);
    count_coordinates(b"large coordinate", file, &LARGE);
}

// Cuts, and changes of a header.
fn count_bytes(file: &mut [u8]) {
    let mut cut = [0; NUMBERS];
    copies::cuts(file, &mut cut);
    copies::print_counts(b"cut", &cut);
    let mut changed = [0; NUMBERS];
    copies::headers(file, &mut changed);
    copies::print_counts(b"changed header", &changed);
}

// Each coordinate gets these bits, one after the other.
fn count_coordinates(what: &[u8], file: &mut [u8], patterns: &[u64]) {
    let mut counts = [0; NUMBERS];
    for bits in patterns {
        coordinates::changes(file, *bits, &mut counts);
    }
    copies::print_counts(what, &counts);
}
