// What came of the cases. For each call, by the kind of its records, and in row 0 for all of them: how many answered each number of the table,
// how many cases there were, and how many differed from the list.
use crate::cases::Outcome;

// How many numbers the table has, from 0 on.
const NUMBERS: usize = 20;

// A row for each kind of record up to the last call's, and one for compaction in place; those of a mesh, of a file and of cosines are no calls,
// so row 0 is for all of them, and rows 12 and 17 stay empty.
pub const ROWS: usize = 21;

// The rows that are printed, one for each call, and one for all cases.
const LINES: [(usize, &str); 19] = [
    (1, "mesh_number"),
    (2, "face"),
    (3, "remove_unused_attrs"),
    (4, "remove_degenerate_faces"),
    (5, "put_together_same_attrs"),
    (6, "shell_condition"),
    (7, "hem_edges"),
    (8, "extract_boundaries"),
    (9, "house_wires"),
    (10, "components"),
    (11, "read_panel"),
    (13, "push"),
    (14, "write_panel"),
    (15, "clean_panel"),
    (16, "loop_subdivision"),
    (18, "read_scan"),
    (19, "put_together_by_cell"),
    (20, "compact_in_place"),
    (0, "all"),
];

#[derive(Clone, Copy)]
pub struct Row {
    numbers: [u32; NUMBERS],
    cases: u32,
    differed: u32,
}

impl Row {
    pub const EMPTY: Row = Row {
        numbers: [0; NUMBERS],
        cases: 0,
        differed: 0,
    };

    fn add(&mut self, outcome: Outcome<'_>) {
        self.cases = self.cases.saturating_add(1);
        self.differed = self.differed.saturating_add(outcome.differs as u32);
        if let Some(count) = self.numbers.get_mut(outcome.number as usize) {
            *count = count.saturating_add(1);
        }
    }

    // How many cases, how many of each number that was answered, and how many differed.
    fn print(&self, name: &str) {
        io::write_all(1, name.as_bytes());
        io::write_all(1, b": cases ");
        io::print_decimal(1, self.cases as u64);
        io::write_all(1, b"; by number");
        for (number, times) in self.numbers.iter().enumerate() {
            if *times > 0 {
                io::write_all(1, b" ");
                io::print_decimal(1, number as u64);
                io::write_all(1, b":");
                io::print_decimal(1, *times as u64);
            }
        }
        io::write_all(1, b"; differed ");
        io::print_decimal(1, self.differed as u64);
        io::write_all(1, b"\n");
    }
}

// One more case of a call.
pub(crate) fn add(rows: &mut [Row; ROWS], call: u32, outcome: Outcome<'_>) {
    rows[0].add(outcome);
    if let Some(row) = rows.get_mut(call as usize) {
        row.add(outcome);
    }
}

pub(crate) fn print(rows: &[Row; ROWS]) {
    for (row, name) in LINES {
        rows[row].print(name);
    }
}
