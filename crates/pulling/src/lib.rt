// How far the neighbours of each position lie from it: for each axis a sum, gathered in one pass over the edges (crate around). Positions
// and sums are flat lists, three numbers for each position. specs/Pulls.antt says what is gathered, and proofs/Rules.antt that this is
// what the rules of smoothing say.
#![tactic(auto)]

ghost use Rattle.std.specs.Prelude.{◌≡◌, ◌/◌, length};
ghost use Rattle.std.specs.Float.{nan};
ghost use Rattle.mesh.specs.Limits.{point_width};
ghost use Rattle.around.specs.Rows.{edges_in};
ghost use Rattle.around.specs.Steps.{both, passed};
ghost use Rattle.pulling.specs.Pulls.{pulls_in, tug, threefold, PullRows, PairAt, PullAt};

// How far all neighbours of each position lie from it: for each axis a sum, in the order of the neighbours, from 0.
pub fn put_pulls(positions: &[f64], lowers: &[u32], highers: &[u32], pulls: &mut [f64])
    requires { PullRows positions.now lowers.now highers.now pulls.old }
    ensures { pulls.new ≡ pulls_in
        (edges_in lowers.now highers.now) positions.now (length positions.now / point_width) }
{
    pulls.fill(0.0);
    for (a, b) in lowers.iter().zip(highers) {
        pull_ends(positions, *a as usize, *b as usize, pulls);
    }
}

// The positions a and b pull each other, on each axis.
fn pull_ends(positions: &[f64], a: usize, b: usize, pulls: &mut [f64])
    requires { PairAt a b positions.now pulls.old }
    ensures { pulls.new ≡ passed nan (tug positions.now) (threefold (a, b)) pulls.old }
{
    let i = mesh::POINT_WIDTH * a;
    let j = mesh::POINT_WIDTH * b;
    pull(positions, i, j, pulls);
    pull(positions, i + 1, j + 1, pulls);
    pull(positions, i + 2, j + 2, pulls);
}

// The same on one axis: i and j are the places of their coordinates.
fn pull(positions: &[f64], i: usize, j: usize, pulls: &mut [f64])
    requires { PullAt i j positions.now pulls.old }
    ensures { pulls.new ≡ both nan (tug positions.now) (i, j) pulls.old }
{
    let p = positions[i];
    let q = positions[j];
    pulls[i] += q - p;
    pulls[j] += p - q;
}
