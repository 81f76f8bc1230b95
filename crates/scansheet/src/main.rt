// scansheet: reads a scan, a binary STL file, from standard input and prints its sheet.
//
// The sheet's bytes are the library's, by its contract; only reading standard input and writing the bytes stand here. One byte more
// than a scan may have is read, and is enough: of a longer one the sheet is that of its beginning (scanning's `beginning_is_enough`).
#![tactic(auto)]

fn main() {
    let mut file = [0u8; scanning::SCAN + 1];
    let mut out = [0u8; scanning::ROOM];
    let n = io::read_full(0, &mut file);
    let answer = scanning::scan_sheet(&file[..n], &mut out);
    io::write_all(1, &out[..answer.length]);
}
