// The scan that writes the hem edges: of each edge with an odd number of uses the last one.
ghost use Rattle.std.specs.Prelude.{false, [], ◌∷◌, ◌+◌};
ghost use Rattle.scans.specs.Runs.{last_odd, Put, PutReady, UseAt};

use crate::Place;

// The last use of each edge with an odd number of uses.
pub fn put_hems(
    lowers: &[u32],
    highers: &[u32],
    downs: &[u32],
    order: &[u32],
    starts: &mut [u32],
    ends: &mut [u32],
) -> usize
    requires { PutReady lowers.now highers.now downs.now order.now starts.old ends.old }
    ensures { Put
        lowers.now highers.now downs.now
        (last_odd lowers.now highers.now false order.now) 0 result
        starts.old ends.old starts.new ends.new }
{
    let mut p = Place::default();
    for (i, u) in order.iter().enumerate() {
        p.odd = !p.odd;
        if !uses::goes_on(lowers, highers, downs, order, i) {
            if p.odd {
                put_hem(lowers, highers, downs, *u as usize, starts, ends, p.count);
                p.count += 1;
            }
            p.odd = false;
        }
    }
    p.count
}

// Where use u starts and where it ends.
fn put_hem(
    lowers: &[u32],
    highers: &[u32],
    downs: &[u32],
    u: usize,
    starts: &mut [u32],
    ends: &mut [u32],
    at: usize,
)
    requires { UseAt lowers.now highers.now downs.now u at starts.old ends.old }
    ensures { Put
        lowers.now highers.now downs.now (u ∷ []) at (at + 1)
        starts.old ends.old starts.new ends.new }
{
    if downs[u] == 1 {
        starts[at] = highers[u];
        ends[at] = lowers[u];
    } else {
        starts[at] = lowers[u];
        ends[at] = highers[u];
    }
}
