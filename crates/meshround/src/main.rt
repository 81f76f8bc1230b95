// meshround: reads a panel file from standard input and writes the rounded file to standard output.
//
// The file's bytes are the library's, by its contract; only reading standard input, the cosines and handing over stand here. One byte more
// than a file may have is read, so that a file that is too long is seen to be. Where a file is refused, nothing goes to standard output, and
// `refused` and the number go to standard error.
#![tactic(auto)]

mod cosines;

const INPUT: usize = saving::FILE + 1;

fn main() {
    let mut file = [0u8; INPUT];
    let mut out = [0u8; saving::FILE];
    let n = io::read_full(0, &mut file);
    let answer = roundfile::round(&file[..n], &cosines::ONES, &cosines::TWOS, &mut out);
    if answer.number != 0 {
        telling::refuse(answer.number);
        return;
    }
    telling::hand_over(&out[..answer.length]);
}
