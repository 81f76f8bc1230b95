// meshsheet: reads a panel file from standard input and prints its sheet.
//
// The sheet's bytes are the library's, by its contract; only reading standard input and writing the bytes stand here. One byte more
// than a file may have is read, so that a file that is too long is seen to be.
#![tactic(auto)]

fn main() {
    let mut file = [0u8; sheet::FILE + 1];
    let mut out = [0u8; sheet::ROOM];
    let n = io::read_full(0, &mut file);
    let answer = sheet::sheet(&file[..n], &mut out);
    io::write_all(1, &out[..answer.length]);
}
