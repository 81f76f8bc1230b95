// Little-endian numbers of two, four and eight bytes. specs/ has what bytes say and the bytes of a number, proofs/ that each undoes
// the other.
#![tactic(auto)]

ghost use Rattle.std.specs.Prelude.{◌≡◌, ◌+◌, ◌≤◌, ◌<◌, length};
ghost use Rattle.std.proofs.lemmas.List.Edits.{sets};
ghost use Rattle.little.specs.Little as little;

// ---- reading

// A byte as a number that fits more.
pub fn wide(b: u8) -> u32
    ensures { (result ≡ b) × (result < little.byte_values) }
{
    b as u32
}

// Two bytes.
pub fn half(s: &[u8], i: usize) -> u32
    requires { i + 2 ≤ length s.now }
    ensures { (result ≡ little.half s.now i) × (result < little.half_values) }
{
    u32::from(u16::from_le_bytes([s[i], s[i + 1]]))
}

// Four bytes.
pub fn word(s: &[u8], i: usize) -> u32
    requires { i + 4 ≤ length s.now }
    ensures { result ≡ little.word s.now i }
{
    u32::from_le_bytes([s[i], s[i + 1], s[i + 2], s[i + 3]])
}

// Eight bytes.
pub fn long(s: &[u8], i: usize) -> u64
    requires { i + 8 ≤ length s.now }
    ensures { result ≡ little.long s.now i }
{
    u64::from_le_bytes([
        s[i],
        s[i + 1],
        s[i + 2],
        s[i + 3],
        s[i + 4],
        s[i + 5],
        s[i + 6],
        s[i + 7],
    ])
}

// ---- writing

// The two lowest bytes of a number.
pub fn put_half(out: &mut [u8], at: usize, x: u32)
    requires { at + 2 ≤ length out.old }
    ensures { out.new ≡ sets out.old at (little.half_bytes x) }
{
    let low = (x & 0xffff) as u16;
    lists::put(&low.to_le_bytes(), out, at);
}

// Its four bytes.
pub fn put_word(out: &mut [u8], at: usize, x: u32)
    requires { at + 4 ≤ length out.old }
    ensures { out.new ≡ sets out.old at (little.word_bytes x) }
{
    let four = x.to_le_bytes();
    lists::put(&four, out, at);
}

// The eight bytes of a number that has more.
pub fn put_long(out: &mut [u8], at: usize, x: u64)
    requires { at + 8 ≤ length out.old }
    ensures { out.new ≡ sets out.old at (little.long_bytes x) }
{
    let eight = x.to_le_bytes();
    lists::put(&eight, out, at);
}
