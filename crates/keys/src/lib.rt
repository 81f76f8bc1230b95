// Edge keys: for each use of an edge, in the order of the faces and of their edges, the first use of the same key, and its face.
// A key has both positions of the edge, and with the normals setting also both normals.
//
// The uses are columns of numbers (columns.rt). A stable sort puts uses of one key together, the first one first (firsts.rt). All
// of it is linear: no use is looked for.
#![tactic(auto)]

ghost use Rattle.std.specs.Prelude.{◌≡◌, ◌/◌, ◌≤◌, length};
ghost use Rattle.mesh.specs.Limits.{width, corner_limit};
ghost use Rattle.mesh.specs.Mesh.{rings};
ghost use Rattle.columns.specs.Keys.{uses_from, use_faces, FirstUses};
ghost use Rattle.columns.specs.Columns.{ColumnRoom, FirstRoom, KeyRows};

pub mod firsts;

// So many uses count as few.
const FEW_USES: usize = 512;

// The first use of each use's key, for a mesh that is accepted. Where there are few uses the rows to work in are short, since a long
// row takes time to begin with.
pub fn first_uses(corners: &[u32], sizes: &[u32], normals: bool, firsts: &mut [u32])
    requires { FirstRoom corners.now sizes.now firsts.old }
    ensures { FirstUses (uses_from normals 0 (rings sizes.now corners.now)) firsts.new }
{
    if corners.len() / mesh::WIDTH <= FEW_USES {
        first_with::<FEW_USES>(corners, sizes, normals, firsts);
    } else {
        first_with::<{ mesh::CORNERS }>(corners, sizes, normals, firsts);
    }
}

// The same, with room for `N` uses in each row.
fn first_with<const N: usize>(corners: &[u32], sizes: &[u32], normals: bool, firsts: &mut [u32])
    requires first { FirstRoom corners.now sizes.now firsts.old }
    requires few { length corners.now / width ≤ N }
    requires room { N ≤ corner_limit }
    ensures { FirstUses (uses_from normals 0 (rings sizes.now corners.now)) firsts.new }
{
    let mut lower = [0u32; N];
    let mut higher = [0u32; N];
    let mut n = [0u32; N];
    let mut m = [0u32; N];
    let mut order = [0u32; N];
    let u = corners.len() / mesh::WIDTH;
    first_uses_in(
        corners,
        sizes,
        normals,
        &mut lower[..u],
        &mut higher[..u],
        &mut n[..u],
        &mut m[..u],
        &mut order[..u],
        firsts,
    );
}

// The same, in rows of one number for each use: four for the digits of the keys, n and m those of the normals.
fn first_uses_in(
    corners: &[u32],
    sizes: &[u32],
    normals: bool,
    lower: &mut [u32],
    higher: &mut [u32],
    n: &mut [u32],
    m: &mut [u32],
    order: &mut [u32],
    firsts: &mut [u32],
)
    requires { KeyRows corners.now sizes.now lower.old higher.old n.old m.old order.old firsts.old }
    ensures { FirstUses (uses_from normals 0 (rings sizes.now corners.now)) firsts.new }
{
    columns::put_digits(corners, sizes, normals, lower, higher, n, m);
    firsts::put_firsts(lower, higher, n, m, normals, order, firsts);
}

// The face of each use.
pub fn put_faces(corners: &[u32], sizes: &[u32], out: &mut [u32])
    requires { ColumnRoom corners.now sizes.now out.old }
    ensures { out.new ≡ use_faces (rings sizes.now corners.now) }
{
    columns::put_column(corners, sizes, false, columns::FACE, out);
}
