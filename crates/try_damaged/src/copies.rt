// Damaged copies of a file, and how often each number came back for them.
ghost use Rattle.std.specs.Prelude.{◌<◌, ◌≤◌, length};

// Every cut, the whole file last.
pub(crate) fn cuts(file: &[u8], counts: &mut [u32]) {
    for n in 0..file.len() {
        tally(&file[..n], counts);
    }
    tally(file, counts);
}

// Every header, record by record.
pub(crate) fn headers(file: &mut [u8], counts: &mut [u32]) {
    let mut at: usize = 0;
    while at < file.len() {
        for k in at..at.saturating_add(4).min(file.len()) {
            changes(file, k, counts);
        }
        at = behind(file, at);
    }
}

// Every other value of the byte at a place.
fn changes(file: &mut [u8], at: usize, counts: &mut [u32])
    requires { at < length file.old }
{
    let old = file[at];
    for value in 0..=u8::MAX {
        if value != old {
            file[at] = value;
            tally(file, counts);
        }
    }
    file[at] = old;
}

// Where the record behind the one at a place begins, or the file's end.
pub(crate) fn behind(file: &[u8], at: usize) -> usize
    requires { at < length file.now }
    ensures lower_bound { at < result }
    ensures upper_bound { result ≤ length file.now }
{
    let left = file.len() - at;
    if left < 4 {
        return file.len();
    }
    at + left.min(4 + little::half(file, at) as usize)
}

// One copy is read, and its number counted.
pub(crate) fn tally(file: &[u8], counts: &mut [u32]) {
    let mut positions = [0.0; mesh::POINT_NUMBERS];
    let mut textures = [0.0; mesh::TEXEL_NUMBERS];
    let mut normals = [0.0; mesh::POINT_NUMBERS];
    let mut corners = [0; mesh::CORNER_NUMBERS];
    let mut sizes = [0; mesh::FACES];
    let panel = panelfile::read_panel(
        file,
        &mut positions,
        &mut textures,
        &mut normals,
        &mut corners,
        &mut sizes,
    );
    if let Some(count) = counts.get_mut(panel.number as usize) {
        *count = count.saturating_add(1);
    }
}

// The numbers that came back, and how often.
pub(crate) fn print_counts(what: &[u8], counts: &[u32]) {
    for (number, count) in counts.iter().enumerate() {
        if *count > 0 {
            print_count(what, number, *count);
        }
    }
}

fn print_count(what: &[u8], number: usize, count: u32) {
    io::write_all(1, what);
    io::write_all(1, b" ");
    io::print_decimal(1, number as u64);
    io::write_all(1, b": ");
    io::print_decimal(1, count as u64);
    io::write_all(1, b"\n");
}
