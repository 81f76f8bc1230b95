// Coordinates in bytes, four-byte signed, little-endian, into a lent list of numbers (document 02, CR 13). The rules stand in
// specs/Triples.antt.
#![tactic(auto)]

ghost use Rattle.std.specs.Prelude.{◌≡◌, ◌*◌, ◌≤◌, length};
ghost use Rattle.triples.specs.Triples as triples;

// How many bytes a coordinate has.
pub const COORDINATE_BYTES: usize = 4;

// The coordinates that stand in `bytes` from its beginning on, as many as the list has room for.
pub fn put_coordinates(bytes: &[u8], out: &mut [i32])
    requires { triples.coordinate_bytes * length out.old ≤ length bytes.now }
    ensures { out.new ≡ triples.coordinates_in bytes.now (length out.old) }
{
    for (k, x) in out.iter_mut().enumerate() {
        *x = signed(little::word(bytes, COORDINATE_BYTES * k));
    }
}

// The number that four bytes say as a signed one.
#[tactic(auto, unfolding(crate::specs::Triples::signed))]
fn signed(x: u32) -> i32
    ensures { result ≡ triples.signed x }
{
    x.cast_signed()
}
