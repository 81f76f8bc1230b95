// A face is split on one row that holds only places of its corners. The row is the ring; it is turned where it stands so that the
// first of its two rings lies in front of the second, and each is split again as a part of the row. The places that a piece takes are
// written behind those that were taken before. No level of the calls has a row of its own.
#![tactic(auto)]

ghost use Rattle.std.specs.Prelude.{◌≡◌, map, false, ◌+◌, ◌*◌, ◌<◌, ◌≤◌, ◌++◌, length, take, drop, MatchOption};
ghost use Rattle.std.proofs.lemmas.List.Edits.{sets};
ghost use Rattle.lists.specs.Lists.{joined, span};
ghost use Rattle.mesh.specs.Limits.{width};
ghost use Rattle.mesh.specs.Mesh.{corner_at};
ghost use Rattle.splitting.specs.Splitting.{folded_by, pieces_by};
ghost use Rattle.places.specs.Working.{position_at_lem, Places, Mate, Found, Repeats, Room, Taken, Parted, Copied};

use grouping::Filled;
use mesh::{LEAST_RING, WIDTH};

// The position of the corner at a place of the face.
#[tactic(auto, unfolding(crate::specs::Working::position_at_lem))]
fn position_at(face: &[u32], p: u32) -> u32
    requires { width * p < length face.now }
    ensures { result ≡ position_at_lem face.now p }
{
    face[WIDTH * (p as usize)]
}

// The first place after i with i's position.
fn mate_at(face: &[u32], row: &[u32], i: usize) -> Option<usize>
    requires i_in_bounds { i < length row.now }
    requires places { Places face.now row.now }
    ensures { Mate (position_at_lem face.now) row.now i result }
{
    let p = position_at(face, row[i]);
    for j in i + 1..row.len() {
        if p == position_at(face, row[j]) {
            return Some(j);
        }
    }
    None
}

// The first place that has such a mate, and its mate.
fn first_pair(face: &[u32], row: &[u32]) -> Option<(usize, usize)>
    requires { Places face.now row.now }
    ensures { MatchOption result
        (folded_by (position_at_lem face.now) row.now ≡ false)
        (λ p. Found (position_at_lem face.now) row.now p.0 p.1) }
{
    for i in 0..row.len() {
        if let Some(j) = mate_at(face, row, i) {
            return Some((i, j));
        }
    }
    None
}

// How many places at the row's beginning have the position of the one behind them.
fn repeats(face: &[u32], row: &[u32]) -> usize
    requires { Places face.now row.now }
    ensures { Repeats (position_at_lem face.now) row.now result }
{
    for k in 1..row.len() {
        if position_at(face, row[k - 1]) != position_at(face, row[k]) {
            return k - 1;
        }
    }
    row.len().saturating_sub(1)
}

// The row begins with what stood at i; what stood before it goes to the end. By three reversals: the library's `rotate_left` moves what it
// turns by memmove, and an archive for C asks for memcpy and memset alone.
fn rotate(row: &mut [u32], i: usize)
    requires { i ≤ length row.old }
    ensures { row.new ≡ drop i row.old ++ take i row.old }
{
    row[..i].reverse();
    row[i..].reverse();
    row.reverse();
}

// A ring that is not folded is one piece where it has three places or more.
fn put_piece(face: &[u32], row: &[u32], took: &mut [u32], lens: &mut [u32], at: Filled) -> Filled
    requires room { Room (length row.now) took.old lens.old at.corners at.faces }
    requires row_value { folded_by (position_at_lem face.now) row.now ≡ false }
    ensures { Taken (pieces_by (position_at_lem face.now) row.now)
        took.old took.new lens.old lens.new
        at.corners at.faces result.corners result.faces }
{
    let n = row.len();
    if n < LEAST_RING {
        return at;
    }
    lists::put(row, took, at.corners);
    lens[at.faces] = n as u32;
    Filled {
        corners: at.corners + n,
        faces: at.faces + 1,
    }
}

// The pieces of the ring whose places stand in the row: each of the two rings is split again by the same rule, the first ring's
// pieces first. Where the row begins with equal corners, each of them but the last is a ring by itself and no piece: they are passed over at
// once, and not at a level each.
fn split_places(
    face: &[u32],
    row: &mut [u32],
    took: &mut [u32],
    lens: &mut [u32],
    at: Filled,
) -> Filled
    requires places { Places face.now row.old }
    requires room { Room (length row.old) took.old lens.old at.corners at.faces }
    ensures { Parted (position_at_lem face.now) row.old row.new
        took.old took.new lens.old lens.new
        at.corners at.faces result.corners result.faces }
{
    let s = repeats(face, row);
    if 0 < s {
        return split_places(face, &mut row[s..], took, lens, at);
    }
    if let Some((i, j)) = first_pair(face, row) {
        let m = j - i;
        rotate(row, i);
        let mid = split_places(face, &mut row[..m], took, lens, at);
        return split_places(face, &mut row[m..], took, lens, mid);
    }
    put_piece(face, row, took, lens, at)
}

// The pieces of a face, place by place. The row has an entry for each of its corners; what stands there before does not matter.
pub fn split_ring(
    face: &[u32],
    row: &mut [u32],
    took: &mut [u32],
    lens: &mut [u32],
    at: Filled,
) -> Filled
    requires face_len { length face.now ≡ width * length row.old }
    requires room { Room (length row.old) took.old lens.old at.corners at.faces }
    ensures { Parted (position_at_lem face.now) (span 0 (length row.old)) row.new
        took.old took.new lens.old lens.new
        at.corners at.faces result.corners result.faces }
{
    sorting::count_up(row);
    split_places(face, row, took, lens, at)
}

// A corner's numbers go to the list.
pub fn put_corner(corner: [u32; WIDTH], out: &mut [u32], at: usize)
    requires { at + width ≤ length out.old }
    ensures { out.new ≡ sets out.old at corner }
{
    lists::put(&corner[..], out, at);
}

// The corners of the face at the places go to the list, one behind the other.
pub fn put_places(face: &[u32], places: &[u32], out: &mut [u32], at: usize)
    requires { Copied face.now places.now out.old at }
    ensures { out.new ≡ sets out.old at (joined (map (corner_at face.now) places.now)) }
{
    for (k, p) in places.iter().enumerate() {
        put_corner(mesh::corner_at(face, *p as usize), out, at + WIDTH * k);
    }
}
