// The lines of the sheet as bytes, in a lent list: what is found in a mesh, or the refusal of a file.
//
// The definitions stand in specs/Lines.antt. 65,536 bytes are room for every sheet: there are at most 4,096 numbers in at most 4,096
// wires, and a number has at most ten digits.
#![tactic(auto)]

ghost use Rattle.std.specs.Prelude.{◌≡◌, ◌≤◌, length};
ghost use Rattle.std.proofs.Math.Option.{some, none};
ghost use Rattle.edges.specs.Answers.{verdict_of};
ghost use Rattle.lists.specs.Putting.{Room, Written};
ghost use Rattle.lines.specs.Lines.{mesh_line, verdict_line, panels_line, hem_line, hem_lines, sheet_text, sheet_room, refusal};
ghost use Rattle.lists.specs.Cutting.{parts};
ghost use Rattle.lines.specs.Working.{wires_by, found_by, Wired, Ready, Sheeted};

use edges::ShellCondition;

// What was found in a mesh, but for its wires: how many positions, texture points, normals, faces and panels there are, the verdict,
// and the number that house wires answered.
#[derive(Clone, Copy)]
pub struct Findings {
    pub positions: u32,
    pub textures: u32,
    pub normals: u32,
    pub faces: u32,
    pub verdict: ShellCondition,
    pub panels: u32,
    pub number: u32,
}

// The sheet of a mesh, from the front of `out` on, its house wires as a flat list and a list of lengths.
pub fn put_sheet(found: Findings, flat: &[u32], lengths: &[u32], out: &mut [u8]) -> usize
    requires { Ready flat.now lengths.now out.old }
    ensures { Sheeted (sheet_text (found_by found flat.now lengths.now)) out.old out.new result }
{
    let a = put_mesh(
        found.positions,
        found.textures,
        found.normals,
        found.faces,
        out,
        0,
    );
    let b = put_verdict(found.verdict, out, a);
    let c = put_panels(found.panels, out, b);
    put_wires(found.number, flat, lengths, out, c)
}

// The whole sheet of a refused file.
pub fn put_refusal(number: u32, out: &mut [u8]) -> usize
    requires { sheet_room ≤ length out.old }
    ensures { Sheeted (refusal number) out.old out.new result }
{
    text::put_line(b"refused", &[number], out, 0)
}

// The first line: positions, texture points, normals, faces.
fn put_mesh(p: u32, t: u32, n: u32, f: u32, out: &mut [u8], at: usize) -> usize
    requires { Room (mesh_line p t n f) out.old at }
    ensures { Written (mesh_line p t n f) out.old out.new at result }
{
    text::put_line(b"mesh", &[p, t, n, f], out, at)
}

// The verdict.
fn put_verdict(v: ShellCondition, out: &mut [u8], at: usize) -> usize
    requires { Room (verdict_line (verdict_of v)) out.old at }
    ensures { Written (verdict_line (verdict_of v)) out.old out.new at result }
{
    match v {
        ShellCondition::Irregular => text::put_bytes(b"verdict Irregular\n", out, at),
        ShellCondition::Regular => text::put_bytes(b"verdict Regular\n", out, at),
        ShellCondition::Oriented => text::put_bytes(b"verdict Oriented\n", out, at),
        ShellCondition::Closed => text::put_bytes(b"verdict Closed\n", out, at),
    }
}

// How many panels there are.
fn put_panels(k: u32, out: &mut [u8], at: usize) -> usize
    requires { Room (panels_line k) out.old at }
    ensures { Written (panels_line k) out.old out.new at result }
{
    text::put_line(b"panels", &[k], out, at)
}

// The house wires, or the line that stands for them, by the number that they answered.
fn put_wires(number: u32, flat: &[u32], lengths: &[u32], out: &mut [u8], at: usize) -> usize
    requires { Wired number flat.now lengths.now out.old at }
    ensures { Written (hem_lines (wires_by number flat.now lengths.now)) out.old out.new at result }
{
    if number == 0 {
        put_hems(flat, lengths, out, at)
    } else {
        put_refused_hems(out, at)
    }
}

// The line that stands for house wires that are refused.
fn put_refused_hems(out: &mut [u8], at: usize) -> usize
    requires { Room (hem_lines none) out.old at }
    ensures { Written (hem_lines none) out.old out.new at result }
{
    text::put_bytes(b"hems refused 10\n", out, at)
}

// One line per wire.
fn put_hems(flat: &[u32], lengths: &[u32], out: &mut [u8], at: usize) -> usize
    requires { Wired 0 flat.now lengths.now out.old at }
    ensures { Written (hem_lines (some (parts lengths.now flat.now))) out.old out.new at result }
{
    let mut to = at;
    let mut from: usize = 0;
    for n in lengths {
        let end = from + *n as usize;
        to = put_hem(&flat[from..end], out, to);
        from = end;
    }
    to
}

// The line of one wire.
fn put_hem(wire: &[u32], out: &mut [u8], at: usize) -> usize
    requires { Room (hem_line wire.now) out.old at }
    ensures { Written (hem_line wire.now) out.old out.new at result }
{
    text::put_line(b"hem", wire, out, at)
}
