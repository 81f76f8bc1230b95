// The second engine of merging: it goes by the points in the order of their cells, and gives what `nearby` gives.
//
// The walk is that of `nearby`; only the next near point is found by the runs of the order that are in reach of a point.
#![tactic(auto)]

ghost use Rattle.std.specs.Prelude.{◌≡◌};
ghost use Rattle.nearby.specs.Pairs.{pairs};
ghost use Rattle.nearby.specs.Engine.{beside_at, near_by, Listed, Roomy, Components};
ghost use Rattle.nextnear.specs.Looking.{Placed};

use nearby::Neighbours;

// The points of one list in the order of their cells, with what stands beside it.
#[derive(Clone, Copy)]
struct Ordered<'a> {
    s: &'a [f64],
    w: usize,
    t: f64,
    cells: &'a [u64],
    n: usize,
    places: &'a [u32],
    slabs: &'a [u32],
    rows: &'a [u32],
    runs: &'a [u32],
    starts: &'a [u32],
    ghost placed: { Placed w n s.now cells.now places.now slabs.now rows.now runs.now starts.now },
}

impl Neighbours for Ordered<'_> {
    ghost count = { λ p. p.n };

    ghost near = { λ p. near_by p.t p.w p.s.now p.cells.now };

    fn count(&self) -> usize {
        self.n
    }

    fn next(&self, seen: &[bool], i: usize, low: usize, from: usize) -> Option<usize> {
        nextnear::next_near(
            self.s,
            self.w,
            self.t,
            self.cells,
            self.n,
            seen,
            self.places,
            self.slabs,
            self.rows,
            self.runs,
            self.starts,
            i,
            low,
            from,
        )
        .checked_sub(1)
    }
}

// What is found of the points of a list: how many groups there are, and how many pairs were compared.
#[derive(Clone, Copy)]
pub struct Found {
    pub groups: usize,
    pub pairs: usize,
}

// All groups of n points, laid out as `nearby::create_components` does, and what `nearby::count_pairs` counts: by the points in
// the order of their cells.
pub fn create_components(
    s: &[f64],
    w: usize,
    t: f64,
    cells: &[u64],
    n: usize,
    order: &mut [usize],
    ends: &mut [usize],
) -> Found
    requires { (Listed w n s.now cells.now) × (Roomy n order.old ends.old) }
    ensures { (Components (near_by t w s.now cells.now) n order.new ends.new result.groups)
        × (result.pairs ≡ pairs (beside_at w cells.now) n) }
{
    let mut places = [0u32; mesh::ENTRIES];
    let mut slabs = [0u32; mesh::ENTRIES];
    let mut rows = [0u32; mesh::ENTRIES];
    let mut runs = [0u32; mesh::ENTRIES];
    let mut starts = [0u32; mesh::ENTRIES];
    let places = &mut places[..n];
    let slabs = &mut slabs[..n];
    let rows = &mut rows[..n];
    let runs = &mut runs[..n];
    let starts = &mut starts[..n];
    cellwise::order_points(cells, w, n, places, slabs, rows);
    cellwise::fill_ends(cells, w, n, places, 1, slabs);
    cellwise::fill_ends(cells, w, n, places, 2, rows);
    cellwise::fill_ends(cells, w, n, places, w, runs);
    cellwise::fill_starts(cells, w, n, places, slabs, starts);
    let points = Ordered {
        s,
        w,
        t,
        cells,
        n,
        places,
        slabs,
        rows,
        runs,
        starts,
    };
    Found {
        groups: nearby::walk(&points, order, ends),
        pairs: inreach::count_pairs(cells, w, n, places, slabs, rows, runs),
    }
}
