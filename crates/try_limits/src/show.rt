// A line: what was tried, and what it gave.
use mesh::Refusal;

// An answer: its number, 0 where it is no refusal, and its counts, which a refusal has as 0.
pub(crate) fn answer<const N: usize>(what: &[u8], answer: Result<[usize; N], Refusal>) {
    match answer {
        Ok(counts) => line(what, 0, &counts),
        Err(refusal) => line(what, refusal.number() as usize, &[0; N]),
    }
}

// A number and others, each behind a space.
pub(crate) fn line(what: &[u8], first: usize, others: &[usize]) {
    io::write_all(1, what);
    number(first);
    for n in others {
        number(*n);
    }
    io::write_all(1, b"\n");
}

fn number(n: usize) {
    io::write_all(1, b" ");
    io::print_decimal(1, n as u64);
}
