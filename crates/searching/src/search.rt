// The search: start at the lowest face left, pop from a stack, go through neighbours in the order they were recorded; a face is
// listed and pushed when first seen. A face is pushed once, so a stack of one place for each face is enough; which faces are
// listed is kept in a row of marks beside.
ghost use Rattle.std.specs.Prelude.{◌≡◌, List, [], ◌∷◌, ℕ, ◌+◌, ◌-◌, ◌<◌, ◌≤◌, length, get_or, take};
ghost use Rattle.connected.specs.Search.{neighbours, look, search_from};
ghost use Rattle.connected.specs.Joins.{joins_of};
ghost use Rattle.connected.specs.Walk as walk;

// All panels, from the lowest face on. The entries of the joins stand by face in `order`, and end where `ends` says.
pub fn list_panels(
    joins: &[u32],
    order: &[u32],
    ends: &[u32],
    seen: &mut [u32],
    stack: &mut [u32],
    flat: &mut [u32],
    lengths: &mut [u32],
) -> crate::Counts
    requires { walk.Partable joins.now order.now ends.now seen.old stack.old flat.old lengths.old }
    ensures { walk.Parted
        (walk.panels_below (length ends.now) (length ends.now) joins.now) flat.old lengths.old
        flat.new lengths.new result.faces result.panels }
{
    let mut counts = crate::Counts {
        faces: 0,
        panels: 0,
    };
    for i in 0..ends.len() {
        counts = list_panel(
            joins,
            order,
            ends,
            i,
            seen,
            stack,
            flat,
            lengths,
            counts.faces,
            counts.panels,
        );
    }
    counts
}

// The panel of face `i`, if that is in none yet, behind `k` panels of `n` faces.
fn list_panel(
    joins: &[u32],
    order: &[u32],
    ends: &[u32],
    i: usize,
    seen: &mut [u32],
    stack: &mut [u32],
    flat: &mut [u32],
    lengths: &mut [u32],
    n: usize,
    k: usize,
) -> crate::Counts
    requires { walk.PanelAt i joins.now order.now ends.now seen.old stack.old flat.old lengths.old n k }
    ensures { walk.PanelledMore
        (i + 1) joins.now ends.now flat.old lengths.old n k seen.new stack.new
        flat.new lengths.new result.faces result.panels }
{
    if seen[i] != 0 {
        return crate::Counts {
            faces: n,
            panels: k,
        };
    }
    let m = search(joins, order, ends, i as u32, seen, stack, flat, n);
    lengths[k] = (m - n) as u32;
    crate::Counts {
        faces: m,
        panels: k + 1,
    }
}

// How many faces are on the stack, and how many are listed.
#[derive(Clone, Copy)]
pub struct Marks {
    pub top: usize,
    pub n: usize,
}

// The panel of `face`, listed behind the `n` faces of the panels before: how many are listed then.
fn search(
    joins: &[u32],
    order: &[u32],
    ends: &[u32],
    face: u32,
    seen: &mut [u32],
    stack: &mut [u32],
    flat: &mut [u32],
    n: usize,
) -> usize
    requires { walk.Searchable joins.now order.now ends.now face seen.old stack.old flat.old n }
    ensures { walk.Searched
        (length ends.now)
        (search_from (length ends.now) (joins_of joins.now) (take n flat.old) (face ∷ []) (face ∷ []))
        flat.old n seen.new stack.new flat.new result }
{
    let mut marks = visit(face, seen, stack, flat, 0, n);
    while 0 < marks.top {
        marks = pop(joins, order, ends, seen, stack, flat, marks.top, marks.n);
    }
    marks.n
}

// The face on top of the stack goes, and its neighbours are looked through.
fn pop(
    joins: &[u32],
    order: &[u32],
    ends: &[u32],
    seen: &mut [u32],
    stack: &mut [u32],
    flat: &mut [u32],
    top: usize,
    n: usize,
) -> Marks
    requires { walk.Poppable joins.now order.now ends.now seen.old stack.old flat.old top n }
    ensures { walk.Stepped
        (length ends.now)
        (look [] (neighbours (get_or stack.old (top - 1) 0) (joins_of joins.now)) (walk.state_of stack.old (top - 1) flat.old n))
        flat.old n seen.new stack.new flat.new result.top result.n }
{
    let left = top - 1;
    let x = stack[left] as usize;
    let from = begin_of(ends, x);
    let to = ends[x] as usize;
    look(joins, order, from, to, seen, stack, flat, left, n)
}

// A look through the neighbours that the entries from `from` on, up to `to`, stand for.
fn look(
    joins: &[u32],
    order: &[u32],
    from: usize,
    to: usize,
    seen: &mut [u32],
    stack: &mut [u32],
    flat: &mut [u32],
    top: usize,
    n: usize,
) -> Marks
    requires { walk.Lookable (length seen.old) joins.now order.now to seen.old stack.old flat.old top n }
    ensures { walk.Stepped
        (length seen.old)
        (look [] (walk.near_between joins.now order.now from to) (walk.state_of stack.old top flat.old n))
        flat.old n seen.new stack.new flat.new result.top result.n }
{
    let mut marks = Marks { top, n };
    for p in from..to {
        let x = other_end(joins, order[p] as usize);
        marks = visit(x, seen, stack, flat, marks.top, marks.n);
    }
    marks
}

// Face `x` is listed and pushed, if it is not listed yet.
fn visit(
    x: u32,
    seen: &mut [u32],
    stack: &mut [u32],
    flat: &mut [u32],
    top: usize,
    n: usize,
) -> Marks
    requires { walk.Visitable (length seen.old) x seen.old stack.old flat.old top n }
    ensures { walk.Stepped
        (length seen.old) (look [] (x ∷ []) (walk.state_of stack.old top flat.old n)) flat.old n
        seen.new stack.new flat.new result.top result.n }
{
    let i = x as usize;
    if seen[i] != 0 {
        return Marks { top, n };
    }
    seen[i] = 1;
    stack[top] = x;
    flat[n] = x;
    Marks {
        top: top + 1,
        n: n + 1,
    }
}

// The other face of the join at entry `e`: joins are flat, two faces each.
fn other_end(joins: &[u32], e: usize) -> u32
    requires { walk.AtEntry joins.now e }
    ensures { result ≡ walk.other_end joins.now e }
{
    if e % 2 == 0 {
        joins[e + 1]
    } else {
        joins[e - 1]
    }
}

// Where the entries of face `x` begin.
fn begin_of(ends: &[u32], x: usize) -> usize
    requires { x < length ends.now }
    ensures { result ≡ walk.begin_of ends.now x }
{
    if x == 0 { 0 } else { ends[x - 1] as usize }
}
