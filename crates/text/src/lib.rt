// Text written to a lent list of bytes: words, decimal numbers and lines of them.
//
// Each call takes the place to write at and answers the place behind what it wrote, so that texts are put one behind the other.
// The definitions that a caller cites stand in specs/Text.antt, and `Room` and `Written` in lists' specs/Putting.antt.
#![tactic(auto)]

ghost use Rattle.std.specs.Prelude.{◌≡◌, [], ◌∷◌, ◌++◌, map, ◌<◌};
ghost use Rattle.lists.specs.Putting.{Room, Written};
ghost use Rattle.text.specs.Text.{digit_byte, decimal, spaced};

// A line: a word, the numbers `ns`, each behind a space, and a line feed.
pub fn put_line(word: &[u8], ns: &[u32], out: &mut [u8], at: usize) -> usize
    requires { Room (word.now ++ spaced (map decimal ns.now) ++ 10 ∷ []) out.old at }
    ensures { Written (word.now ++ spaced (map decimal ns.now) ++ 10 ∷ []) out.old out.new at result }
{
    let start = put_bytes(word, out, at);
    let end = put_numbers(ns, out, start);
    out[end] = b'\n';
    end + 1
}

// The bytes of `text`.
pub fn put_bytes(text: &[u8], out: &mut [u8], at: usize) -> usize
    requires { Room text.now out.old at }
    ensures { Written text.now out.old out.new at result }
{
    lists::put(text, out, at);
    at + text.len()
}

// The numbers `ns`, each behind a space.
fn put_numbers(ns: &[u32], out: &mut [u8], at: usize) -> usize
    requires { Room (spaced (map decimal ns.now)) out.old at }
    ensures { Written (spaced (map decimal ns.now)) out.old out.new at result }
{
    let mut to = at;
    for n in ns {
        to = put_number(u64::from(*n), out, to);
    }
    to
}

// A number of 32 bits as one of 64.
pub fn long(n: u32) -> u64
    ensures { result ≡ n }
{
    u64::from(n)
}

// A number behind a space. It has 64 bits, as a length may need them.
pub fn put_number(n: u64, out: &mut [u8], at: usize) -> usize
    requires { Room (32 ∷ decimal n) out.old at }
    ensures { Written (32 ∷ decimal n) out.old out.new at result }
{
    out[at] = b' ';
    put_decimal(n, out, at + 1)
}

// The decimal digits of n: those of its tenth, cut, and then its last one.
fn put_decimal(n: u64, out: &mut [u8], at: usize) -> usize
    requires { Room (decimal n) out.old at }
    ensures { Written (decimal n) out.old out.new at result }
{
    if n < 10 {
        out[at] = digit(n);
        return at + 1;
    }
    let last = put_decimal(n / 10, out, at);
    out[last] = digit(n % 10);
    last + 1
}

fn digit(d: u64) -> u8
    requires { d < 10 }
    ensures { result ≡ digit_byte d }
{
    b'0' + d as u8
}
