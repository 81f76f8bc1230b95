// Whether a coordinate is beyond 1,000,000 either way (document 02, CR 13, row 19).
#![tactic(auto)]

ghost use Rattle.std.specs.Prelude.{◌≡◌};
ghost use Rattle.hemlist.specs.HemList.{too_far, beyond_reach};

// How far a coordinate may lie from 0, either way.
pub const COORDINATES: u64 = 1000000;

// One coordinate.
pub fn is_far(a: i32) -> bool
    ensures { result ≡ too_far a }
{
    COORDINATES < roots::apart(a, 0)
}

// All of them, up to the first that is.
#[tactic(auto, unfolding(hemlist::specs::HemList::beyond_reach))]
pub fn beyond_reach(triples: &[i32]) -> bool
    ensures { result ≡ beyond_reach triples.now }
{
    triples.iter().any(|a| is_far(*a))
}
