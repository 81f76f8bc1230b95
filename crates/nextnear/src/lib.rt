// The next near point of a point, by the runs of the order that are in reach of it.
#![tactic(auto)]

ghost use Rattle.std.specs.Prelude.{◌≡◌, true, ◌≤◌, ◌<◌, length};
ghost use Rattle.nearby.specs.Engine.{beside_at, near_by, fresh, Listed, Next};
ghost use Rattle.inreach.specs.Reach.{Run};
ghost use Rattle.nextnear.specs.Looking.{wanted, Better, Best, Placed};

use cellwise::entry;
use inreach::skip;

// `best`, or one more than j, where j is as high and wanted; it is compared with i.
fn better(
    s: &[f64],
    w: usize,
    t: f64,
    cells: &[u64],
    n: usize,
    seen: &[bool],
    i: usize,
    low: usize,
    from: usize,
    j: usize,
    best: usize,
) -> usize
    requires { (Listed w n s.now cells.now) × (n ≤ length seen.now) × (i < n) × (j < n) × (beside_at w cells.now i j ≡ true) }
    ensures { Better (wanted t w s.now cells.now seen.now i low from) j best result }
{
    // One test after the other, and what is taken first: as one condition they took 1.6 times as long where all points lie in one cell.
    if seen[j] {
        return best;
    }
    if j < best {
        return best;
    }
    if j < low {
        return best;
    }
    if from <= j {
        return best;
    }
    if floating::distance2(w, floating::attr_at(s, w, i), floating::attr_at(s, w, j)) < t * t {
        return j + 1;
    }
    best
}

// The same over a run, the places from `fore` to below `rear`: from its end on, since of one cell the highest point stands last.
fn best_in_run(
    s: &[f64],
    w: usize,
    t: f64,
    cells: &[u64],
    n: usize,
    seen: &[bool],
    order: &[u32],
    i: usize,
    low: usize,
    from: usize,
    fore: usize,
    rear: usize,
    best: usize,
) -> usize
    requires { (Listed w n s.now cells.now) × (n ≤ length seen.now) × (i < n) × (Run w n cells.now order.now i fore rear) }
    ensures { Best (wanted t w s.now cells.now seen.now i low from) order.now fore rear best result }
{
    let mut found = best;
    for k in (fore..rear).rev() {
        found = better(
            s,
            w,
            t,
            cells,
            n,
            seen,
            i,
            low,
            from,
            entry(order, k),
            found,
        );
    }
    found
}

// The highest point below `from` that is near i and not taken, as one more than its number; 0 where none from `low` on is.
pub fn next_near(
    s: &[f64],
    w: usize,
    t: f64,
    cells: &[u64],
    n: usize,
    seen: &[bool],
    order: &[u32],
    slabs: &[u32],
    rows: &[u32],
    runs: &[u32],
    starts: &[u32],
    i: usize,
    low: usize,
    from: usize,
) -> usize
    requires { (Placed w n s.now cells.now order.now slabs.now rows.now runs.now starts.now) × (i < n) × (from ≤ n) × (n ≤ length seen.now) }
    ensures { Next (fresh (near_by t w s.now cells.now) seen.now i) low from result }
{
    let mut best = 0;
    let mut q = entry(starts, i);
    while q < n {
        let r = skip(cells, w, n, order, slabs, rows, runs, i, q);
        if r == q {
            let end = entry(runs, q);
            best = best_in_run(s, w, t, cells, n, seen, order, i, low, from, q, end, best);
            q = end;
        } else {
            q = r;
        }
    }
    best
}
