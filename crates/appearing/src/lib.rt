// The points of a scan numbered by first appearance: points with equal bits have one number. Crate matching marks each point with the
// first one that has its bits; so one pass over the points is enough, and nothing is searched for.
#![tactic(auto)]

ghost use Rattle.std.specs.Prelude.{◌≡◌, length};
ghost use Rattle.scanned.specs.Scan.{point_at};
ghost use Rattle.matching.specs.Steps.{ScanRows};
ghost use Rattle.appearing.specs.Appearing.{Numbered};
ghost use Rattle.appearing.specs.Steps.{Marks, NumberedBy, TakeRoom, Taken};

// Each point gets its number, for as many points as `numbers` has room. Returns how many different points there are.
pub fn number_points(file: &[u8], numbers: &mut [u32]) -> usize
    requires { ScanRows file.now (length numbers.old) }
    ensures { Numbered (point_at file.now) (length numbers.old) numbers.new result }
{
    matching::mark_points(file, numbers);
    number_marks(numbers)
}

// One pass over the points, of each of which `numbers` has the first one with its bits.
fn number_marks(numbers: &mut [u32]) -> usize
    requires { Marks numbers.old }
    ensures { NumberedBy numbers.old numbers.new result }
{
    let mut found: usize = 0;
    for x in 0..numbers.len() {
        found = take_point(x, found, numbers);
    }
    found
}

// Point `x`, where there are `found` numbers so far: a first one gets the next number, any other the number of its first. Returns how many
// numbers there are then.
fn take_point(x: usize, found: usize, numbers: &mut [u32]) -> usize
    requires { TakeRoom x found numbers.old }
    ensures { Taken x found numbers.old numbers.new result }
{
    let first = numbers[x] as usize;
    if first == x {
        numbers[x] = found as u32;
        return found + 1;
    }
    numbers[x] = numbers[first];
    found
}
