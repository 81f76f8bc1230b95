// The lines of the hem sheet as bytes, in a lent list: `hem`, panel, edges and length per hem (document 02, CR 13). The definitions stand in
// specs/HemLines.antt.
#![tactic(auto)]

ghost use Rattle.lists.specs.Putting.{Room, Written};
ghost use Rattle.hemlines.specs.HemLines.{hem_line, hem_lines};
ghost use Rattle.hemlines.specs.Working.{Beside};

// One line per hem, from place `at` on: of each its panel, its number of edges and its length. Answers the place behind them.
pub fn put_hems(panels: &[u32], edges: &[u32], lengths: &[u64], out: &mut [u8], at: usize) -> usize
    requires { Beside panels.now edges.now lengths.now out.old at }
    ensures { Written
        (hem_lines panels.now edges.now lengths.now) out.old out.new at result }
{
    let mut to = at;
    for (k, panel) in panels.iter().enumerate() {
        to = put_hem(u64::from(*panel), u64::from(edges[k]), lengths[k], out, to);
    }
    to
}

// The line of one hem.
fn put_hem(panel: u64, edges: u64, length: u64, out: &mut [u8], at: usize) -> usize
    requires { Room (hem_line panel edges length) out.old at }
    ensures { Written (hem_line panel edges length) out.old out.new at result }
{
    let a = text::put_bytes(b"hem", out, at);
    let b = text::put_number(panel, out, a);
    let c = text::put_number(edges, out, b);
    let d = text::put_number(length, out, c);
    out[d] = 10;
    d + 1
}
