// Merging: `put_together_same_attrs` gives near positions, texture points and normals one index each.
//
// The Rust's `create_blocks`, `create_adjacency` and `create_components` are the crate `nearby`, and its `centralize` is the crate
// `centring`; what is done for each of the three lists is here. The crate `bycell` is a second engine in the place of `nearby`.
#![tactic(auto)]

ghost use Rattle.std.specs.Prelude.{◌≡◌, ◌||◌, map, ◌/◌, ◌≤◌, ◌<◌, length, get_or};
ghost use Rattle.std.proofs.lemmas.List.Edits.{sets};
ghost use Rattle.lists.specs.Lists.{some, joined};
ghost use Rattle.mesh.specs.Mesh.{mesh_of, missing, corners_in};
ghost use Rattle.floating.specs.Limits.{boundless, distant};
ghost use Rattle.floating.specs.Scaling.{scaled_list};
ghost use Rattle.nearby.specs.Pairs.{pairs, compared_pairs};
ghost use Rattle.nearby.specs.Walk.{groups};
ghost use Rattle.nearby.specs.Engine.{beside_at, near_by, Listed, Roomy, Components};
ghost use Rattle.together.specs.Centre as centre;
ghost use Rattle.together.specs.Merging.{merge_number, merged_to, unless_missing, PutTogether};
ghost use Rattle.together.specs.Working.{Mergeable, Settled, Scalable, Indexed, sent_corner};

use bycell::Found;
use mesh::MISSING;
pub use together::Merged;

// Takes the mesh in five lists and a tolerance, and lends `out` for the new corners, which needs the room of the corners; the
// attribute lists and the face sizes don't change. Answers 0 and how many pairs were compared in each list; or 1 to 5 as the mesh
// earns, 6 for the tolerance, 7 for a coordinate, 8 for a texture or normal coordinate too large for the tolerance, or 9 where
// `out` is too short, with counts of 0 and nothing written.
pub fn put_together_same_attrs(
    positions: &[f64],
    textures: &[f64],
    normals: &[f64],
    corners: &[u32],
    sizes: &[u32],
    tolerance: f64,
    out: &mut [u32],
) -> Merged
    ensures { PutTogether
        (mesh_of positions.now textures.now normals.now corners.now sizes.now)
        tolerance out.old out.new result }
{
    put_together::<EachPair>(positions, textures, normals, corners, sizes, tolerance, out)
}

// The same, for scans: the points are ordered by cell, and only those in cells within two on each axis are compared. It has the very
// contract of `put_together_same_attrs`, so it answers the same.
pub fn put_together_by_cell(
    positions: &[f64],
    textures: &[f64],
    normals: &[f64],
    corners: &[u32],
    sizes: &[u32],
    tolerance: f64,
    out: &mut [u32],
) -> Merged
    ensures { PutTogether
        (mesh_of positions.now textures.now normals.now corners.now sizes.now)
        tolerance out.old out.new result }
{
    put_together::<ByCell>(positions, textures, normals, corners, sizes, tolerance, out)
}

// ---- the engines

// What finds the groups of near points, and counts the pairs that are compared.
trait Engine {
    fn find(
        s: &[f64],
        w: usize,
        t: f64,
        cells: &[u64],
        n: usize,
        order: &mut [usize],
        ends: &mut [usize],
    ) -> Found
        requires { (Listed w n s.now cells.now) × (Roomy n order.old ends.old) }
        ensures { (Components (near_by t w s.now cells.now) n order.new ends.new result.groups)
            × (result.pairs ≡ pairs (beside_at w cells.now) n) };
}

// Each point is held to each other one; or the points are gone through by their cells.
struct EachPair;

struct ByCell;

impl Engine for EachPair {
    fn find(
        s: &[f64],
        w: usize,
        t: f64,
        cells: &[u64],
        n: usize,
        order: &mut [usize],
        ends: &mut [usize],
    ) -> Found {
        Found {
            groups: nearby::create_components(s, w, t, cells, n, order, ends),
            pairs: nearby::count_pairs(cells, w, n),
        }
    }
}

impl Engine for ByCell {
    fn find(
        s: &[f64],
        w: usize,
        t: f64,
        cells: &[u64],
        n: usize,
        order: &mut [usize],
        ends: &mut [usize],
    ) -> Found {
        bycell::create_components(s, w, t, cells, n, order, ends)
    }
}

// The call by an engine; what is promised does not depend on it.
fn put_together<E: Engine>(
    positions: &[f64],
    textures: &[f64],
    normals: &[f64],
    corners: &[u32],
    sizes: &[u32],
    tolerance: f64,
    out: &mut [u32],
) -> Merged
    ensures { PutTogether
        (mesh_of positions.now textures.now normals.now corners.now sizes.now)
        tolerance out.old out.new result }
{
    let number = number(
        positions,
        textures,
        normals,
        corners,
        sizes,
        tolerance,
        out.len(),
    );
    if number != 0 {
        return Merged {
            number,
            positions: 0,
            textures: 0,
            normals: 0,
        };
    }
    merge::<E>(positions, textures, normals, corners, sizes, tolerance, out)
}

// ---- the number

// The first row of 1 to 9 whose rule says so, or 0; `room` is that of the lent list of corners.
fn number(
    positions: &[f64],
    textures: &[f64],
    normals: &[f64],
    corners: &[u32],
    sizes: &[u32],
    tolerance: f64,
    room: usize,
) -> u32
    ensures { result ≡ merge_number
        (mesh_of positions.now textures.now normals.now corners.now sizes.now)
        tolerance room }
{
    let number = mesh::number(positions, textures, normals, corners, sizes);
    if number != 0 {
        return number;
    }
    if floating::is_unfit(tolerance) {
        return 6;
    }
    if any_boundless(positions, textures, normals) {
        return 7;
    }
    if any_distant(textures, normals, tolerance) {
        return 8;
    }
    if room < corners.len() {
        return 9;
    }
    0
}

// Row 7, over all three lists, unused entries too.
fn any_boundless(positions: &[f64], textures: &[f64], normals: &[f64]) -> bool
    ensures { result ≡ (some boundless positions.now || some boundless textures.now || some boundless normals.now) }
{
    has_boundless(positions) || has_boundless(textures) || has_boundless(normals)
}

fn has_boundless(s: &[f64]) -> bool
    ensures { result ≡ some boundless s.now }
{
    s.iter().any(|x| floating::is_boundless(*x))
}

// Row 8, of texture points and normals; no scaled position reaches it.
fn any_distant(textures: &[f64], normals: &[f64], t: f64) -> bool
    ensures { result ≡ (some (distant t) textures.now || some (distant t) normals.now) }
{
    has_distant(textures, t) || has_distant(normals, t)
}

fn has_distant(s: &[f64], t: f64) -> bool
    ensures { result ≡ some (distant t) s.now }
{
    s.iter().any(|x| floating::is_distant(t, *x))
}

// ---- the three lists of a mesh that earns 0

fn merge<E: Engine>(
    positions: &[f64],
    textures: &[f64],
    normals: &[f64],
    corners: &[u32],
    sizes: &[u32],
    t: f64,
    out: &mut [u32],
) -> Merged
    requires { merge_number (mesh_of positions.now textures.now normals.now corners.now sizes.now) t (length out.old) ≡ 0 }
    ensures { PutTogether
        (mesh_of positions.now textures.now normals.now corners.now sizes.now)
        t out.old out.new result }
{
    let mut pmap = [0u32; mesh::ENTRIES];
    let mut tmap = [0u32; mesh::ENTRIES];
    let mut nmap = [0u32; mesh::ENTRIES];
    let p = merge_positions::<E>(positions, t, &mut pmap);
    let u = merge_list::<E>(textures, 2, t, textures.len() / 2, &mut tmap);
    let n = merge_list::<E>(normals, 3, t, normals.len() / 3, &mut nmap);
    send_corners(corners, &pmap, &tmap, &nmap, out);
    Merged {
        number: 0,
        positions: p,
        textures: u,
        normals: n,
    }
}

// Positions are first scaled; with no positions nothing is scaled.
fn merge_positions<E: Engine>(positions: &[f64], t: f64, map: &mut [u32]) -> usize
    requires { (Scalable positions.now t) × (length positions.now / 3 ≤ length map.old) }
    ensures { (result ≡ compared_pairs t 3 (scaled_list positions.now))
        × (Settled (length positions.now / 3) (merged_to t 3 (scaled_list positions.now)) map.old map.new) }
{
    if positions.is_empty() {
        return 0;
    }
    let mut room = [0.0f64; mesh::POINT_NUMBERS];
    floating::scale(positions, &mut room);
    let end = positions.len();
    let scaled = &room[..end];
    merge_list::<E>(scaled, 3, t, end / 3, map)
}

// ---- corners

// Indices in corners become the representative's; each mark stays with its corner.
fn send_corners(corners: &[u32], pmap: &[u32], tmap: &[u32], nmap: &[u32], out: &mut [u32])
    requires { Indexed corners.now pmap.now tmap.now nmap.now out.old }
    ensures { out.new ≡ sets out.old 0 (joined (map (sent_corner pmap.now tmap.now nmap.now) (corners_in corners.now))) }
{
    let count = corners.len() / mesh::WIDTH;
    for k in 0..count {
        let at = mesh::WIDTH * k;
        out[at] = pmap[corners[at] as usize];
        out[at + 1] = sent(tmap, corners[at + 1]);
        out[at + 2] = sent(nmap, corners[at + 2]);
        out[at + 3] = corners[at + 3];
    }
}

// A missing index stays missing.
fn sent(map: &[u32], i: u32) -> u32
    requires { (i ≡ missing → ⊥) → i < length map.now }
    ensures { result ≡ unless_missing (λ j. get_or map.now j 0) i }
{
    if i == MISSING { i } else { map[i as usize] }
}

// ---- one list

// The groups of n points are those that the engine finds; and how many pairs were compared.
fn merge_groups<E: Engine>(
    s: &[f64],
    w: usize,
    t: f64,
    cells: &[u64],
    n: usize,
    map: &mut [u32],
) -> usize
    requires { (Listed w n s.now cells.now) × (n ≤ length map.old) }
    ensures { (result ≡ pairs (beside_at w cells.now) n)
        × (Settled n (centre.sent_to w s.now (groups (near_by t w s.now cells.now) n)) map.old map.new) }
{
    let mut order = [0usize; mesh::ENTRIES];
    let mut ends = [0usize; mesh::ENTRIES];
    let found = E::find(s, w, t, cells, n, &mut order, &mut ends);
    centring::centralize_groups(s, w, n, &order, &ends, found.groups, map);
    found.pairs
}

// The Rust's `sub_put_together_same_attrs`: where each of the n points of one list goes, to `map`, and how many pairs were compared.
fn merge_list<E: Engine>(s: &[f64], w: usize, t: f64, n: usize, map: &mut [u32]) -> usize
    requires { Mergeable t w n s.now map.old }
    ensures { (result ≡ compared_pairs t w s.now) × (Settled n (merged_to t w s.now) map.old map.new) }
{
    let mut room = [0u64; mesh::POINT_NUMBERS];
    nearby::fill_cells(s, t, &mut room);
    merge_groups::<E>(s, w, t, &room[..s.len()], n, map)
}
