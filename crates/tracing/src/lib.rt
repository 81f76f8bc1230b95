// Wires are traced through two tables: for each position the first of its hem edges that is left, and for each hem edge the next
// with the same start. Taking an edge puts its next in its place. Crate ported fills the tables. A wire begins at the first position with
// an edge left, and the positions before it are never looked at again; so the work is one step for each position and each hem edge.
// House wires go by uses and not by position (crate trailing); they share what is answered.
#![tactic(auto)]

ghost use Rattle.std.specs.Prelude.{◌≡◌};
ghost use Rattle.tracing.specs.Tables.{left};
ghost use Rattle.tracing.specs.Tracing.{trace, traces, Underway, StepTaken, Begun, Ended, Unwritten, OneMore, AllLeft};
ghost use Rattle.tracing.specs.Hems.{Written};
ghost use Rattle.tracing.specs.Answers.{refused_by};

// What a call answers: its number, how many numbers the flat list holds, and how many wires there are.
#[derive(Clone, Copy)]
pub struct Wires {
    pub number: u32,
    pub flat: usize,
    pub wires: usize,
}

// How many numbers and how many wires are written.
#[derive(Clone, Copy)]
pub struct Traced {
    pub flat: usize,
    pub wires: usize,
}

// No hem edge's number: there is none, or none any more.
pub const NOBODY: u32 = mesh::LARGEST;

// A refusal: each count beside it is 0.
pub fn refused(number: u32) -> Wires
    ensures { result ≡ refused_by number }
{
    Wires {
        number,
        flat: 0,
        wires: 0,
    }
}

// All wires, from the smallest start on, from the front of `flat` and `lengths` on. A position is left only when no edge is left there.
pub fn trace_all(
    starts: &[u32],
    ends: &[u32],
    nexts: &[u32],
    firsts: &mut [u32],
    flat: &mut [u32],
    lengths: &mut [u32],
) -> Traced
    requires { AllLeft starts.now ends.now nexts.now firsts.old flat.old lengths.old }
    ensures { Written (traces (left starts.now ends.now firsts.old))
        flat.old lengths.old flat.new lengths.new
        result.flat result.wires }
{
    let mut done = Traced { flat: 0, wires: 0 };
    for p in 0..firsts.len() {
        while (firsts[p] as usize) < starts.len() {
            done = trace_one(starts, ends, nexts, firsts, p, flat, lengths, done);
        }
    }
    done
}

// One wire more, which begins at `p`, and its length.
fn trace_one(
    starts: &[u32],
    ends: &[u32],
    nexts: &[u32],
    firsts: &mut [u32],
    p: usize,
    flat: &mut [u32],
    lengths: &mut [u32],
    done: Traced,
) -> Traced
    requires { Unwritten starts.now ends.now nexts.now firsts.old p flat.old lengths.old done.flat done.wires }
    ensures { OneMore starts.now ends.now nexts.now
        (trace p p (left starts.now ends.now firsts.old))
        flat.old lengths.old done.flat done.wires
        firsts.new flat.new lengths.new result.flat result.wires }
{
    let at = done.flat;
    let k = done.wires;
    let end = trace_wire(starts, ends, nexts, firsts, p as u32, flat, at);
    lengths[k] = (end - at) as u32;
    Traced {
        flat: end,
        wires: k + 1,
    }
}

// The wire that begins at `first`, from place `at` of `flat` on; the answer is the place behind it.
fn trace_wire(
    starts: &[u32],
    ends: &[u32],
    nexts: &[u32],
    firsts: &mut [u32],
    first: u32,
    flat: &mut [u32],
    at: usize,
) -> usize
    requires { Begun starts.now ends.now nexts.now firsts.old first flat.old at }
    ensures { Ended starts.now ends.now nexts.now
        (trace first first (left starts.now ends.now firsts.old))
        flat.old at firsts.new flat.new result }
{
    let mut m = at;
    let mut c = first;
    loop {
        flat[m] = c;
        m += 1;
        c = onward_from(starts, ends, nexts, firsts, first, c);
        if c == first {
            return m;
        }
    }
}

// Where the entry of `c` leads to, which is taken out; back to the wire's first position where there is none.
fn onward_from(
    starts: &[u32],
    ends: &[u32],
    nexts: &[u32],
    firsts: &mut [u32],
    first: u32,
    c: u32,
) -> u32
    requires { Underway starts.now ends.now nexts.now firsts.old first c }
    ensures { StepTaken starts.now ends.now nexts.now first c firsts.old firsts.new result }
{
    let p = c as usize;
    let k = firsts[p] as usize;
    if k >= starts.len() {
        return first;
    }
    firsts[p] = nexts[k];
    ends[k]
}
