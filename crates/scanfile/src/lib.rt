// The scanner's own file, binary STL: the reader that turns its bytes into a mesh or into a number of the table.
//
// The length is compared with what the count asks before any point is read, and the count before any length is made of it, so that no
// length can wrap. Then every point is tested; then points are numbered in rows of the reader's own, so that a refused file writes
// nothing; then positions, corners and sizes go to the lent lists. The rules stand in crate scanned.
#![tactic(auto)]

ghost use Rattle.std.specs.Prelude.{◌≡◌, ℕ, ◌≤◌, length};
ghost use Rattle.lists.specs.Lists.{some};
ghost use Rattle.mesh.specs.Mesh.{mesh_of};
ghost use Rattle.scanned.specs.Scan.{point_at, points_in, not_finite, length_number};
ghost use Rattle.scanned.specs.Answer.{ScanRead};
ghost use Rattle.matching.specs.Steps.{ScanRows};
ghost use Rattle.scanned.specs.Seen.{upto};
ghost use Rattle.scanfile.specs.Steps.{PointsRoom, NumbersRoom, PointsRead};

use reading::MeshRead;

// Where the count stands.
const HEADER_BYTES: usize = 80;

// Reads a binary STL file into five lent lists. A scan has no texture points and no normals: those two lists are never written.
//
// Lends: room at the full limits, 6,144 numbers for positions, 4,096 for texture points, 6,144 for normals, 16,384 for corners
// and 1,365 for sizes.
// Numbers: 9; 11 fewer than 84 bytes; 1 a count over 1,365; 11 or 13 the length is below or above what the count asks; 14 a point that is
// not finite; 1 more than 2,048 different positions. A refused file writes nothing.
pub fn read_scan(
    file: &[u8],
    positions: &mut [f64],
    textures: &mut [f64],
    normals: &mut [f64],
    corners: &mut [u32],
    sizes: &mut [u32],
) -> MeshRead
    ensures { ScanRead file.now
        (mesh_of positions.old textures.old normals.old corners.old sizes.old)
        (mesh_of positions.new textures.new normals.new corners.new sizes.new)
        result }
{
    if drawing::is_short(
        positions.len(),
        textures.len(),
        normals.len(),
        corners.len(),
        sizes.len(),
    ) {
        return drawing::refused(9);
    }
    let number = length_number(file);
    if number != 0 {
        return drawing::refused(number);
    }
    read_points(file, positions, corners, sizes)
}

// What the length earns.
fn length_number(file: &[u8]) -> u32
    ensures { result ≡ length_number file.now }
{
    if file.len() < widening::FRONT_BYTES {
        return 11;
    }
    let count = little::word(file, HEADER_BYTES) as usize;
    if count > mesh::FACES {
        return 1;
    }
    let asked = widening::FRONT_BYTES + widening::TRIANGLE_BYTES * count;
    if file.len() < asked {
        return 11;
    }
    if file.len() > asked {
        return 13;
    }
    0
}

// A file whose length is what its count asks.
fn read_points(
    file: &[u8],
    positions: &mut [f64],
    corners: &mut [u32],
    sizes: &mut [u32],
) -> MeshRead
    requires { PointsRoom file.now positions.old corners.old sizes.old }
    ensures { PointsRead (points_in file.now)
        positions.old corners.old sizes.old
        positions.new corners.new sizes.new result }
{
    let points = mesh::LEAST_RING * little::word(file, HEADER_BYTES) as usize;
    if some_not_finite(file, points) {
        return drawing::refused(14);
    }
    let mut numbers = [0u32; mesh::CORNERS];
    read_numbered(file, &mut numbers[..points], positions, corners, sizes)
}

// Whether some point is not finite.
fn some_not_finite(file: &[u8], points: usize) -> bool
    requires { ScanRows file.now points }
    ensures { result ≡ some not_finite (upto (point_at file.now) points) }
{
    for k in 0..points {
        if widening::not_finite_from(file, widening::place_of(k)) {
            return true;
        }
    }
    false
}

// Its points are finite: they are numbered, and where there are not too many the mesh is put.
fn read_numbered(
    file: &[u8],
    numbers: &mut [u32],
    positions: &mut [f64],
    corners: &mut [u32],
    sizes: &mut [u32],
) -> MeshRead
    requires { NumbersRoom file.now numbers.old positions.old corners.old sizes.old }
    ensures { PointsRead (upto (point_at file.now) (length numbers.old))
        positions.old corners.old sizes.old
        positions.new corners.new sizes.new result }
{
    let found = appearing::number_points(file, numbers);
    if found > mesh::ENTRIES {
        return drawing::refused(1);
    }
    handing::put_positions(file, numbers, positions);
    handing::put_corners(numbers, corners);
    let points = numbers.len();
    let faces = points / mesh::LEAST_RING;
    grouping::fill_tags(sizes, 0, faces, mesh::LEAST_RING as u32);
    MeshRead {
        number: 0,
        positions: found,
        textures: 0,
        normals: 0,
        corners: points,
        faces,
    }
}
