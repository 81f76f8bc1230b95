// What is compared with one point, in an order of points by cell: runs of points of one cell that is within two on every axis. What is
// out of reach is passed over many at a time: a slab, a row or a run, and what is left of them where the axis only rises from there on.
#![tactic(auto)]

ghost use Rattle.std.specs.Prelude.{◌≡◌, ◌+◌, ◌≤◌, ◌<◌, get_or, drop};
ghost use Rattle.lists.specs.Lists.{count};
ghost use Rattle.nearby.specs.Pairs.{pairs};
ghost use Rattle.nearby.specs.Engine.{beside_at};
ghost use Rattle.cellwise.specs.Blocks.{Tables};
ghost use Rattle.inreach.specs.Reach.{Skipped};

use cellwise::{cell_at, entry};

// Points are compared whose cells differ by at most this, on every axis.
const REACH: u64 = 2;

// ---- runs

// The place up to which no point from q on is compared with point i; q itself where the one there is.
pub fn skip(
    cells: &[u64],
    w: usize,
    n: usize,
    order: &[u32],
    slabs: &[u32],
    rows: &[u32],
    runs: &[u32],
    i: usize,
    q: usize,
) -> usize
    requires { (Tables w n cells.now order.now slabs.now rows.now runs.now) × (i < n) × (q < n) }
    ensures { Skipped (beside_at w cells.now i) order.now n q result }
{
    let j = entry(order, q);
    let x = cell_at(cells, w, n, 0, i);
    let u = cell_at(cells, w, n, 0, j);
    if u + REACH < x {
        return entry(slabs, q);
    }
    if x + REACH < u {
        return n;
    }
    let y = cell_at(cells, w, n, 1, i);
    let v = cell_at(cells, w, n, 1, j);
    if v + REACH < y {
        return entry(rows, q);
    }
    if y + REACH < v {
        return entry(slabs, q);
    }
    if w == mesh::TEXEL_WIDTH {
        return q;
    }
    let z = cell_at(cells, w, n, 2, i);
    let t = cell_at(cells, w, n, 2, j);
    if t + REACH < z {
        return entry(runs, q);
    }
    if z + REACH < t {
        return entry(rows, q);
    }
    q
}

// ---- pairs

// How many points behind the place p are compared with the one there.
fn count_behind(
    cells: &[u64],
    w: usize,
    n: usize,
    order: &[u32],
    slabs: &[u32],
    rows: &[u32],
    runs: &[u32],
    p: usize,
) -> usize
    requires { (Tables w n cells.now order.now slabs.now rows.now runs.now) × (p < n) }
    ensures { (result ≡ count (beside_at w cells.now (get_or order.now p 0)) (drop (p + 1) order.now)) × (result ≤ n) }
{
    let i = entry(order, p);
    let mut found = 0;
    let mut q = p + 1;
    while q < n {
        let r = skip(cells, w, n, order, slabs, rows, runs, i, q);
        if r == q {
            let end = entry(runs, q);
            found += end - q;
            q = end;
        } else {
            q = r;
        }
    }
    found
}

// How many pairs are compared, each unordered pair once: from the point that stands first in the order.
pub fn count_pairs(
    cells: &[u64],
    w: usize,
    n: usize,
    order: &[u32],
    slabs: &[u32],
    rows: &[u32],
    runs: &[u32],
) -> usize
    requires { Tables w n cells.now order.now slabs.now rows.now runs.now }
    ensures { result ≡ pairs (beside_at w cells.now) n }
{
    let mut found = 0;
    for p in 0..n {
        found += count_behind(cells, w, n, order, slabs, rows, runs, p);
    }
    found
}
