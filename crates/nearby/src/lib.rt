// The points of one list: their cells, how many pairs are compared, and the walk of a group of near points.
//
// The Rust finds near points by a map of blocks. Here each point's cells are worked out once, as whole numbers. The count looks at
// each pair once; the walk looks at it once from each of its two points, but for points below the group's first. A distance
// is worked out only where the cells of two points are beside each other on every axis, and the second is not taken.
#![tactic(auto)]

ghost use Rattle.std.specs.Prelude.{◌≡◌, Bool, false, ℕ, ◌≤◌, ◌<◌, length};
ghost use Rattle.std.proofs.lemmas.List.Edits.{sets};
ghost use Rattle.lists.specs.Lists.{some};
ghost use Rattle.lists.specs.Numbers.{count_below};
ghost use Rattle.floating.specs.Limits.{distant};
ghost use Rattle.floating.specs.Cells.{beside};
ghost use Rattle.mesh.specs.Limits.{entry_limit};
ghost use Rattle.nearby.specs.Pairs.{pairs};
ghost use Rattle.nearby.specs.Engine.{cells_of, beside_at, near_by, fresh, behind, Points, Listed, Next, Walked, Roomy, Components};
ghost use Rattle.nearby.specs.Frames.{Starts};

// Points are compared whose cells differ by at most this, on every axis.
const REACH: u64 = 2;

// ---- cells

// The cells of all coordinates of `s` go to `cells`, each as its place among the numbers from 0.
pub fn fill_cells(s: &[f64], t: f64, cells: &mut [u64])
    requires { (some (distant t) s.now ≡ false) × (length s.now ≤ length cells.old) }
    ensures { cells.new ≡ sets cells.old 0 (cells_of t s.now) }
{
    for (k, x) in s.iter().enumerate() {
        cells[k] = floating::cell_of(*x / t);
    }
}

// Two cells differ by at most 2.
fn is_beside(x: u64, y: u64) -> bool
    ensures { result ≡ beside x y }
{
    x.abs_diff(y) <= REACH
}

// The cells of points i and j differ by at most 2 on every axis.
fn is_beside_at(cells: &[u64], w: usize, n: usize, i: usize, j: usize) -> bool
    requires { (Points w n cells.now) × (i < n) × (j < n) }
    ensures { result ≡ beside_at w cells.now i j }
{
    let a = w * i;
    let b = w * j;
    is_beside(cells[a], cells[b])
        && is_beside(cells[a + 1], cells[b + 1])
        && (w == mesh::TEXEL_WIDTH || is_beside(cells[a + 2], cells[b + 2]))
}

// ---- pairs

// How many of the points before j are compared with it.
fn count_with(cells: &[u64], w: usize, n: usize, j: usize) -> usize
    requires { (Points w n cells.now) × (j < n) }
    ensures { (result ≡ count_below (λ i. beside_at w cells.now i j) j) × (result ≤ j) }
{
    let mut found = 0;
    for i in 0..j {
        if is_beside_at(cells, w, n, i, j) {
            found += 1;
        }
    }
    found
}

// How many pairs are compared, each unordered pair once.
pub fn count_pairs(cells: &[u64], w: usize, n: usize) -> usize
    requires { Points w n cells.now }
    ensures { result ≡ pairs (beside_at w cells.now) n }
{
    let mut found = 0;
    for j in 0..n {
        found += count_with(cells, w, n, j);
    }
    found
}

// ---- which points are near

// Points, of which each is asked which are near it.
pub trait Neighbours {
    ghost count: { Self → ℕ };

    ghost near: { Self → ℕ → ℕ → Bool };

    // How many points there are.
    fn count(&self) -> usize
        ensures { result ≡ count self.now };

    // The highest point below `from` that is near i and not taken; None where none from `low` on is.
    fn next(&self, seen: &[bool], i: usize, low: usize, from: usize) -> Option<usize>
        requires { (i < count self.now) × (from ≤ count self.now) × (count self.now ≤ length seen.now) }
        ensures { Next (fresh (near self.now) seen.now i) low from (behind result) };
}

// The points of one list, with their cells: those near one are found by looking at all.
#[derive(Clone, Copy)]
struct Each<'a> {
    s: &'a [f64],
    w: usize,
    t: f64,
    cells: &'a [u64],
    n: usize,
    ghost listed: { Listed w n s.now cells.now },
}

impl Each<'_> {
    // Point j is near point i, and not taken.
    fn is_fresh(&self, seen: &[bool], i: usize, j: usize) -> bool
        requires { (i < self.now.n) × (j < self.now.n) × (self.now.n ≤ length seen.now) }
        ensures { result ≡ fresh (near_by self.now.t self.now.w self.now.s.now self.now.cells.now) seen.now i j }
    {
        is_beside_at(self.cells, self.w, self.n, i, j)
            && !seen[j]
            && floating::distance2(
                self.w,
                floating::attr_at(self.s, self.w, i),
                floating::attr_at(self.s, self.w, j),
            ) < self.t * self.t
    }
}

impl Neighbours for Each<'_> {
    ghost count = { λ p. p.n };

    ghost near = { λ p. near_by p.t p.w p.s.now p.cells.now };

    fn count(&self) -> usize {
        self.n
    }

    fn next(&self, seen: &[bool], i: usize, low: usize, from: usize) -> Option<usize> {
        for j in (low..from).rev() {
            if self.is_fresh(seen, i, j) {
                return Some(j);
            }
        }
        None
    }
}

// ---- the walk of a group

// A point that is walked from, and how many of the points, from the highest down, are still to be looked at for it.
#[derive(Clone, Copy)]
struct Frame {
    node: usize,
    left: usize,
}

// The group of `start`, the lowest point left, is walked: its points go to `order` behind the `done` that are there, in walk order,
// each with a flag in `seen`. Answers how many are taken then.
//
// The document's stack can hold far more entries than there are points. Here it is kept as frames: a point, and how many of its
// near points, from the highest down, are still to be popped. Each frame's point is taken once, so there is room for all.
fn create_component<N: Neighbours>(
    points: &N,
    start: usize,
    done: usize,
    order: &mut [usize],
    seen: &mut [bool],
    frames: &mut [Frame],
) -> usize
    requires { Starts (N.count points.now) order.old seen.old frames.old start done }
    ensures { Walked (N.near points.now) (N.count points.now) order.old start done order.new seen.new result }
{
    let n = points.count();
    order[done] = start;
    seen[start] = true;
    frames[0] = Frame {
        node: start,
        left: n,
    };
    let mut taken = done + 1;
    let mut depth = 1;
    while 0 < depth {
        let top = &frames[depth - 1];
        match points.next(seen, top.node, start, top.left) {
            None => depth -= 1,
            Some(j) => {
                frames[depth - 1].left = j;
                order[taken] = j;
                seen[j] = true;
                frames[depth] = Frame { node: j, left: n };
                taken += 1;
                depth += 1;
            }
        }
    }
    taken
}

// All groups of some points, each walked from its lowest index: their points go to `order`, one group after the other, and the place
// behind each group's last point to `ends`. Answers how many groups there are.
pub fn walk<N: Neighbours>(points: &N, order: &mut [usize], ends: &mut [usize]) -> usize
    requires { (N.count points.now ≤ entry_limit) × (Roomy (N.count points.now) order.old ends.old) }
    ensures { Components (N.near points.now) (N.count points.now) order.new ends.new result }
{
    let mut seen = [false; mesh::ENTRIES];
    let mut frames = [Frame { node: 0, left: 0 }; mesh::ENTRIES];
    let mut taken = 0;
    let mut count = 0;
    for k in 0..points.count() {
        if !seen[k] {
            taken = create_component(points, k, taken, order, &mut seen, &mut frames);
            ends[count] = taken;
            count += 1;
        }
    }
    count
}

// The same of the n points of a list.
pub fn create_components(
    s: &[f64],
    w: usize,
    t: f64,
    cells: &[u64],
    n: usize,
    order: &mut [usize],
    ends: &mut [usize],
) -> usize
    requires { (Listed w n s.now cells.now) × (Roomy n order.old ends.old) }
    ensures { Components (near_by t w s.now cells.now) n order.new ends.new result }
{
    let points = Each { s, w, t, cells, n };
    walk(&points, order, ends)
}
