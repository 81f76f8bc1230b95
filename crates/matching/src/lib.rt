// Points of a scan with equal bits: each point is marked with the first one that has its bits. The bits are cut into digits, and the
// proved sort of crate keys puts points with equal digits together; no point is compared with all others. Four digits are half of a
// point, so that points are marked by the lower half, by the upper half, and then by the two marks.
#![tactic(auto)]

ghost use Rattle.std.specs.Prelude.{◌≡◌, Bool, true, false, ℕ, ◌<◌, length};
ghost use Rattle.matching.specs.Marks.{MarkedBy, FirstPairs};
ghost use Rattle.matching.specs.Steps.{lowest, half_at, ScanRows, BothRoom, HalfRoom, HalfRows, HalfColumns, DigitRoom, DigitsPut, BothRows, AlikeRoom};
ghost use Rattle.scanned.specs.Scan.{point_at};

// A digit has so many values.
const DIGITS: u64 = 4096;

// The digit that every point has where only two are asked: where all are alike they change no order.
const ALIKE: u32 = 1;

// Each point is marked with the first one that has its bits, for as many points as `firsts` has numbers.
pub fn mark_points(file: &[u8], firsts: &mut [u32])
    requires { ScanRows file.now (length firsts.old) }
    ensures { MarkedBy (point_at file.now) (length firsts.old) firsts.new }
{
    let mut low = [0u32; mesh::CORNERS];
    let mut high = [0u32; mesh::CORNERS];
    let u = firsts.len();
    mark_in(file, &mut low[..u], &mut high[..u], firsts);
}

// The same, in two rows for the marks by half.
fn mark_in(file: &[u8], low: &mut [u32], high: &mut [u32], firsts: &mut [u32])
    requires { BothRoom file.now low.old high.old firsts.old }
    ensures { MarkedBy (point_at file.now) (length firsts.old) firsts.new }
{
    mark_half(file, false, low);
    mark_half(file, true, high);
    mark_both(low, high, firsts);
}

// Each point is marked with the first one that has its lower or its upper half.
fn mark_half(file: &[u8], upper: bool, firsts: &mut [u32])
    requires { ScanRows file.now (length firsts.old) }
    ensures { MarkedBy (half_at upper file.now) (length firsts.old) firsts.new }
{
    let mut a = [0u32; mesh::CORNERS];
    let mut b = [0u32; mesh::CORNERS];
    let mut c = [0u32; mesh::CORNERS];
    let mut d = [0u32; mesh::CORNERS];
    let mut order = [0u32; mesh::CORNERS];
    let u = firsts.len();
    mark_half_in(
        file,
        upper,
        &mut a[..u],
        &mut b[..u],
        &mut c[..u],
        &mut d[..u],
        &mut order[..u],
        firsts,
    );
}

// The same, in rows for the four digits and for the order.
fn mark_half_in(
    file: &[u8],
    upper: bool,
    a: &mut [u32],
    b: &mut [u32],
    c: &mut [u32],
    d: &mut [u32],
    order: &mut [u32],
    firsts: &mut [u32],
)
    requires { HalfRoom file.now a.old b.old c.old d.old order.old firsts.old }
    ensures { MarkedBy (half_at upper file.now) (length firsts.old) firsts.new }
{
    put_columns(file, upper, a, b, c, d);
    keys::firsts::put_firsts(a, b, c, d, true, order, firsts);
}

// The digits of that half of each point.
fn put_columns(file: &[u8], upper: bool, a: &mut [u32], b: &mut [u32], c: &mut [u32], d: &mut [u32])
    requires { HalfRows file.now a.old b.old c.old d.old }
    ensures { HalfColumns (half_at upper file.now) (length a.old) a.new b.new c.new d.new }
{
    for k in 0..a.len() {
        let h = widening::half_from(file, widening::place_of(k), upper);
        put_digits(h, k, a, b, c, d);
    }
}

// The digits of one half.
fn put_digits(h: u64, k: usize, a: &mut [u32], b: &mut [u32], c: &mut [u32], d: &mut [u32])
    requires { DigitRoom k a.old b.old c.old d.old }
    ensures { DigitsPut h k a.old b.old c.old d.old a.new b.new c.new d.new }
{
    let h1 = h / DIGITS;
    let h2 = h1 / DIGITS;
    let h3 = h2 / DIGITS;
    a[k] = digit(h);
    b[k] = digit(h1);
    c[k] = digit(h2);
    d[k] = digit(h3);
}

// The lowest digit.
fn digit(h: u64) -> u32
    ensures { result ≡ lowest h }
{
    (h % DIGITS) as u32
}

// Each point is marked with the first one that has both its marks.
fn mark_both(low: &[u32], high: &[u32], firsts: &mut [u32])
    requires { BothRows low.now high.now (length firsts.old) }
    ensures { FirstPairs low.now high.now (length firsts.old) firsts.new }
{
    let alike = [ALIKE; mesh::CORNERS];
    let mut order = [0u32; mesh::CORNERS];
    let u = firsts.len();
    mark_both_in(low, high, &alike[..u], &mut order[..u], firsts);
}

// The same, in a row to work in, with a row that is alike all along.
fn mark_both_in(low: &[u32], high: &[u32], alike: &[u32], order: &mut [u32], firsts: &mut [u32])
    requires { AlikeRoom low.now high.now alike.now order.old firsts.old }
    ensures { FirstPairs low.now high.now (length firsts.old) firsts.new }
{
    keys::firsts::put_firsts(low, high, alike, alike, false, order, firsts);
}
