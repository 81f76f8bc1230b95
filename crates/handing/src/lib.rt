// The mesh of a scan's points goes to lent lists, once each point has its number: the position of each number, and a corner for each
// point. The numbers are by first appearance, so that a point with the next number is a new position, and nothing is searched for.
#![tactic(auto)]

ghost use Rattle.std.specs.Prelude.{◌≡◌, length};
ghost use Rattle.std.proofs.lemmas.List.Edits.{sets};
ghost use Rattle.lists.specs.Lists.{each};
ghost use Rattle.scanned.specs.Scan.{point_at, coordinates_of, bare};
ghost use Rattle.scanned.specs.Seen.{seen};
ghost use Rattle.handing.specs.Handing.{PositionRoom, CornerRoom};
ghost use Rattle.handing.specs.Steps.{NewRoom, NewPut};

// The coordinates of each different point, in the order of first appearance.
pub fn put_positions(file: &[u8], numbers: &[u32], positions: &mut [f64])
    requires { PositionRoom file.now numbers.now positions.old }
    ensures { positions.new ≡ sets positions.old 0
        (each coordinates_of (seen (point_at file.now) (length numbers.now))) }
{
    let mut found: usize = 0;
    for (x, number) in numbers.iter().enumerate() {
        found = put_new(file, x, *number as usize, found, positions);
    }
}

// Point `x`, where `found` positions were put: it is new where it has the next number. Returns how many positions there are then.
fn put_new(file: &[u8], x: usize, number: usize, found: usize, positions: &mut [f64]) -> usize
    requires { NewRoom file.now x number found positions.old }
    ensures { NewPut (point_at file.now x) number found positions.old positions.new result }
{
    if number != found {
        return found;
    }
    let point = widening::point_from(file, widening::place_of(x));
    floating::put_point(point, positions, found);
    found + 1
}

// A corner for each point: its position's number, no texture, no normal and no mark.
pub fn put_corners(numbers: &[u32], corners: &mut [u32])
    requires { CornerRoom numbers.now corners.old }
    ensures { corners.new ≡ sets corners.old 0 (each bare numbers.now) }
{
    for (x, number) in numbers.iter().enumerate() {
        let corner = [*number, mesh::MISSING, mesh::MISSING, 0];
        lists::put(&corner, corners, mesh::WIDTH * x);
    }
}
