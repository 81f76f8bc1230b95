// Where each point of a list goes: the centre of a group and its representative, and each of the group's points sent there (the Rust's
// `centralize`). The rules and the laws are those of crate together.
#![tactic(auto)]

ghost use Rattle.std.specs.Prelude.{◌≡◌, ℕ, ◌<◌, ◌≤◌, length};
ghost use Rattle.std.proofs.Math.Seq.{slice};
ghost use Rattle.floating.specs.Points.{leading};
ghost use Rattle.nearby.specs.Engine.{laid_out};
ghost use Rattle.together.specs.Centre as centre;
ghost use Rattle.together.specs.Working.{Grouped, InGroups, Sent, Settled};

use floating::Point;

// ---- a group, at the places from `from` to below `to` of `order`

// Its centre: the sum from 0.0 in walk order divided by the count.
fn group_centre(s: &[f64], w: usize, n: usize, order: &[usize], from: usize, to: usize) -> Point
    requires { Grouped w n s.now order.now from to }
    ensures { leading w result ≡ centre.centre_of w s.now (slice from to order.now) }
{
    let mut sum = Point {
        x: 0.0,
        y: 0.0,
        z: 0.0,
    };
    for k in from..to {
        sum = floating::plus(sum, floating::attr_at(s, w, order[k]));
    }
    floating::over(sum, std::num::nearest_u64_to_f64((to - from) as u64))
}

// Its representative: the first in walk order with the smallest squared distance to the centre.
fn representative(s: &[f64], w: usize, n: usize, order: &[usize], from: usize, to: usize) -> usize
    requires { Grouped w n s.now order.now from to }
    ensures { (result ≡ centre.representative w s.now (slice from to order.now)) × (result < n) }
{
    let c = group_centre(s, w, n, order, from, to);
    let mut rep = order[from];
    let mut least = floating::distance2(w, floating::attr_at(s, w, rep), c);
    for k in from + 1..to {
        let i = order[k];
        let d = floating::distance2(w, floating::attr_at(s, w, i), c);
        if d < least {
            least = d;
            rep = i;
        }
    }
    rep
}

// Each of its points is sent to the representative.
fn centralize(
    s: &[f64],
    w: usize,
    n: usize,
    order: &[usize],
    from: usize,
    to: usize,
    map: &mut [u32],
)
    requires { (Grouped w n s.now order.now from to) × (n ≤ length map.old) }
    ensures { Sent w n s.now (slice from to order.now) map.old map.new }
{
    let rep = representative(s, w, n, order, from, to) as u32;
    for k in from..to {
        map[order[k]] = rep;
    }
}

// Each point of the first `count` groups is sent to the representative of its group.
pub fn centralize_groups(
    s: &[f64],
    w: usize,
    n: usize,
    order: &[usize],
    ends: &[usize],
    count: usize,
    map: &mut [u32],
)
    requires { (InGroups w n s.now order.now ends.now count) × (n ≤ length map.old) }
    ensures { Settled n (centre.sent_to w s.now (laid_out order.now ends.now count)) map.old map.new }
{
    let mut from = 0;
    for k in 0..count {
        let to = ends[k];
        centralize(s, w, n, order, from, to, map);
        from = to;
    }
}
