// The joins, in the order of the uses: each later use of a key joins its face to the first face that had the key.
ghost use Rattle.std.specs.Prelude.{ℕ, ◌+◌, ◌<◌, ◌≤◌, length};
ghost use Rattle.lists.specs.Putting.{Written};
ghost use Rattle.panels.specs.Joins.{join_at, joins_by, Joinable, JoinableAt};

// All joins, flat: two faces each. `firsts` has for each use the first use of its key.
pub fn put_joins(faces: &[u32], firsts: &[u32], out: &mut [u32]) -> usize
    requires { Joinable faces.now firsts.now out.old }
    ensures { Written (joins_by faces.now firsts.now (length firsts.now)) out.old out.new 0 result }
{
    let mut m: usize = 0;
    for u in 0..firsts.len() {
        m = put_join(faces, firsts, u, out, m);
    }
    m
}

// The join of use `u`, if it has one.
fn put_join(faces: &[u32], firsts: &[u32], u: usize, out: &mut [u32], m: usize) -> usize
    requires { JoinableAt faces.now firsts.now u out.old m }
    ensures { Written (join_at faces.now firsts.now u) out.old out.new m result }
{
    let f = firsts[u] as usize;
    if f == u {
        return m;
    }
    out[m] = faces[u];
    out[m + 1] = faces[f];
    m + 2
}
