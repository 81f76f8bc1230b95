// The scan for the verdict: how often each edge is used, up and down.
ghost use Rattle.std.specs.Prelude.{◌≡◌, false, ◌+◌, ◌<◌, ◌≤◌};
ghost use Rattle.mesh.specs.Limits.{corner_limit};
ghost use Rattle.uses.specs.Uses.{Ready};
ghost use Rattle.scans.specs.Runs.{tally_of, counted, closed, tallied};

use crate::Tally;

// All uses, in their order.
pub fn tally_uses(lowers: &[u32], highers: &[u32], downs: &[u32], order: &[u32]) -> Tally
    requires { Ready lowers.now highers.now downs.now order.now }
    ensures { result ≡ tallied lowers.now highers.now downs.now (tally_of 0 0 false false false) order.now }
{
    let mut t = Tally::default();
    for (i, u) in order.iter().enumerate() {
        t = count_use(t, downs[*u as usize]);
        if !uses::goes_on(lowers, highers, downs, order, i) {
            t = close_edge(t);
        }
    }
    t
}

// One use more of the present edge.
#[tactic(auto, unfolding(crate::specs::Runs::counted))]
fn count_use(t: Tally, down: u32) -> Tally
    requires { t.ups + t.downs < corner_limit }
    ensures { result ≡ counted down t }
{
    if down == 1 {
        Tally {
            downs: t.downs + 1,
            ..t
        }
    } else {
        Tally {
            ups: t.ups + 1,
            ..t
        }
    }
}

// No use more of the present edge: what its uses come to is seen.
#[tactic(auto, unfolding(crate::specs::Runs::closed))]
fn close_edge(t: Tally) -> Tally
    requires { t.ups + t.downs ≤ corner_limit }
    ensures { result ≡ closed t }
{
    let n = t.ups + t.downs;
    Tally {
        ups: 0,
        downs: 0,
        thrice: t.thrice || 3 <= n,
        alike: t.alike || 2 <= t.ups || 2 <= t.downs,
        once: t.once || 1 == n,
    }
}
