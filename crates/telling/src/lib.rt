// What a program that writes a panel file has to say: the file on standard output, or on standard error that it is refused. No contract can
// speak of what is written; the bytes are the library's.
#![tactic(auto)]

// A file, to its last byte; where that cannot be, `unwritten` goes to standard error.
pub fn hand_over(file: &[u8]) {
    if !io::write_all(1, file) {
        io::write_all(2, b"unwritten\n");
    }
}

// What is said of a refused file.
pub fn refuse(number: u32) {
    io::write_all(2, b"refused ");
    io::print_decimal(2, number as u64);
    io::write_all(2, b"\n");
}
