// What stands around each position: how many neighbours it has, and the first two along a hem. Each is gathered in one pass over the
// edges, in their order: an edge changes the entries of its two ends, each by the other end. Nothing is searched. The edges come as two
// rows, lower and higher ends; specs/Rows.antt says what is gathered, proofs/Gathering.antt has the one law of such a pass, and
// proofs/Rules.antt says that this is what the rules of smoothing say.
#![tactic(auto)]

ghost use Rattle.std.specs.Prelude.{◌≡◌, length};
ghost use Rattle.around.specs.Rows.{edges_in, hems_in, degrees_in, EdgeRows, HemRows, HemsAre};
ghost use Rattle.around.specs.Steps.{both, one_more, given, given_at, CountAt, Entries, HemAt};

// How many neighbours each position has.
pub fn put_degrees(lowers: &[u32], highers: &[u32], degrees: &mut [u32])
    requires { EdgeRows (length degrees.old) lowers.now highers.now }
    ensures { degrees.new ≡ degrees_in (edges_in lowers.now highers.now) (length degrees.old) }
{
    degrees.fill(0);
    for (a, b) in lowers.iter().zip(highers) {
        count_ends(*a as usize, *b as usize, degrees);
    }
}

// The positions a and b have one neighbour more: each other.
fn count_ends(a: usize, b: usize, degrees: &mut [u32])
    requires { CountAt a b degrees.old }
    ensures { degrees.new ≡ both 0 one_more (a, b) degrees.old }
{
    degrees[a] += 1;
    degrees[b] += 1;
}

// ---- neighbours along a hem

// The first and the second neighbour of each position along an edge with one wing; MISSING where there is none.
// MISSING and no Option: the rules say `missing` of these rows, and fixed memory has no room for a flag beside each entry.
pub fn put_hems(
    lowers: &[u32],
    highers: &[u32],
    wings: &[u32],
    first: &mut [u32],
    second: &mut [u32],
)
    requires { HemRows lowers.now highers.now wings.now first.old second.old }
    ensures { HemsAre
        (length first.old) (hems_in lowers.now highers.now wings.now) first.new second.new }
{
    first.fill(mesh::MISSING);
    second.fill(mesh::MISSING);
    for e in 0..lowers.len() {
        put_hem(lowers, highers, wings, e, first, second);
    }
}

// Edge e: where it has one wing, each of its ends gets the other.
fn put_hem(
    lowers: &[u32],
    highers: &[u32],
    wings: &[u32],
    e: usize,
    first: &mut [u32],
    second: &mut [u32],
)
    requires { HemAt lowers.now highers.now wings.now e first.old second.old }
    ensures { (first.new, second.new) ≡ given_at
        lowers.now highers.now wings.now e (first.old, second.old) }
{
    if wings[e] == 1 {
        let a = lowers[e];
        let b = highers[e];
        give(a as usize, b, first, second);
        give(b as usize, a, first, second);
    }
}

// Position v gets w: as its first neighbour along a hem, or as its second; a third is left out.
fn give(v: usize, w: u32, first: &mut [u32], second: &mut [u32])
    requires { Entries v first.old second.old }
    ensures { (first.new, second.new) ≡ given v w (first.old, second.old) }
{
    if first[v] == mesh::MISSING {
        first[v] = w;
    } else if second[v] == mesh::MISSING {
        second[v] = w;
    }
}
