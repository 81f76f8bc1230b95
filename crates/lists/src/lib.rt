// Small steps on lists that all crates take: copies of a part to a place, the place behind another in a ring; and the laws on lists
// that all crates cite.
// The definitions of specs/ are the words in which the rules are written; proofs/ has what is known of them.
#![tactic(auto)]

ghost use Rattle.std.specs.Prelude.{◌≡◌, ◌+◌, ◌<◌, ◌≤◌, length};
ghost use Rattle.std.proofs.lemmas.List.Edits.{sets};
ghost use Rattle.lists.specs.Numbers.{next_of};

// A number of a list, as a place in another.
pub fn wide(x: u32) -> usize
    ensures { result ≡ x }
{
    x as usize
}

// The place behind `i` in a ring of `n`.
pub fn next_of(i: usize, n: usize) -> usize
    requires { i < n }
    ensures { (result ≡ next_of i n) × (result < n) }
{
    if i + 1 < n { i + 1 } else { 0 }
}

// What stands in `part` goes to `out`, from place `at` on, bit for bit. By a loop: the library's `copy_from_slice` asks for memmove, which an
// archive for C is not to ask for.
pub fn put<T: Copy>(part: &[T], out: &mut [T], at: usize)
    requires { at + length part.now ≤ length out.old }
    ensures { out.new ≡ sets out.old at part.now }
{
    for (i, x) in part.iter().enumerate() {
        out[at + i] = *x;
    }
}
