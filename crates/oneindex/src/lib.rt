// One index of one corner renumbered: what compaction does at each.
//
// The rules stand in unused's specs/Compaction.antt.
#![tactic(auto)]

ghost use Rattle.std.specs.Prelude.{◌≡◌, ◌*◌};
ghost use Rattle.std.proofs.lemmas.List.Edits.{sets};
ghost use Rattle.unused.specs.Compaction as want;
ghost use Rattle.oneindex.specs.Working.{Entry, Before, Taken};

use mesh::{MISSING, POINT_WIDTH, TEXEL_WIDTH};

// One column of one corner: the index that corner k has in column q gets its new number, and where this is its first use, its
// entry goes behind those that were used before. Answers how many entries are used now.
pub fn take_in(
    attrs: &[f64],
    w: usize,
    corners: &[u32],
    k: usize,
    q: usize,
    old2new: &mut [u32],
    used: u32,
    fresh: &mut [f64],
    out: &mut [u32],
) -> u32
    requires { Before attrs.now w corners.now k q old2new.old used fresh.old out.old }
    ensures { Taken attrs.now w corners.now k q old2new.new result fresh.old fresh.new out.old out.new }
{
    let at = mesh::WIDTH * k + q;
    let i = corners[at];
    if i == MISSING {
        out[at] = i;
        return used;
    }
    let x = i as usize;
    let m = old2new[x];
    if m != MISSING {
        out[at] = m;
        return used;
    }
    old2new[x] = used;
    out[at] = used;
    put_entry(attrs, w, x, fresh, used as usize);
    used + 1
}

// The entry i of one list becomes the entry j of another, w numbers wide, bit for bit. Each width is copied by its constant, which is a few
// moves and no loop.
fn put_entry(from: &[f64], w: usize, i: usize, to: &mut [f64], j: usize)
    requires entry { Entry from.now w i }
    requires entry_2 { Entry to.old w j }
    ensures { to.new ≡ sets to.old (j * w) (want.entry_at w from.now i) }
{
    let a = i * w;
    let b = j * w;
    if w == POINT_WIDTH {
        lists::put(&from[a..a + POINT_WIDTH], to, b);
    } else {
        lists::put(&from[a..a + TEXEL_WIDTH], to, b);
    }
}
