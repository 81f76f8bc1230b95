// The scans over the uses of all edges, sorted so that those of one edge stand together (crate uses): one counts them for the verdict
// (counting.rt), one writes the hem edges (writing.rt). Their contracts cite the steps of specs/Runs.antt; crate edges proves that these
// come to the rules.
#![tactic(auto)]

pub mod counting;
pub mod writing;

// What a scan over the sorted uses has seen: how many uses of the present edge run up and how many down, and whether an edge
// that is passed was used three times or more, twice in the same direction, exactly once.
#[derive(Clone, Copy, Default)]
pub struct Tally {
    pub ups: usize,
    pub downs: usize,
    pub thrice: bool,
    pub alike: bool,
    pub once: bool,
}

// Where a scan stands that writes the hem edges: whether an odd number of the present edge's uses is passed, and how many hem
// edges are written.
#[derive(Clone, Copy, Default)]
pub struct Place {
    pub odd: bool,
    pub count: usize,
}
