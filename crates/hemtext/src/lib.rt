// The hem sheet of an accepted mesh and its triples, as bytes in a lent list (document 02, CR 13): what crate listing lists, as lines. The
// definitions stand in specs/HemText.antt.
#![tactic(auto)]

ghost use Rattle.mesh.specs.Mesh.{rings};
ghost use Rattle.lines.specs.Working.{Sheeted};
ghost use Rattle.hemtext.specs.Working.{Textable, text_by};

// Room for the line of one hem, and for every hem sheet.
const LINE_ROOM: usize = 26;

pub const ROOM: usize = LINE_ROOM * mesh::CORNERS;

// The sheet of a mesh with so many positions and a triple for each, from the front of `out` on: its hems, or the refusal, which is 19 or 10.
// Answers its length.
pub fn put_sheet(
    corners: &[u32],
    sizes: &[u32],
    positions: usize,
    triples: &[i32],
    out: &mut [u8],
) -> usize
    requires { Textable corners.now sizes.now positions triples.now out.old }
    ensures { Sheeted
        (text_by triples.now (rings sizes.now corners.now)) out.old out.new result }
{
    if reaching::beyond_reach(triples) {
        return lines::put_refusal(19, out);
    }
    let mut panels = [0u32; mesh::CORNERS];
    let mut edges = [0u32; mesh::CORNERS];
    let mut lengths = [0u64; mesh::CORNERS];
    let listed = listing::list_of(
        corners,
        sizes,
        positions,
        triples,
        &mut panels[..],
        &mut edges[..],
        &mut lengths[..],
    );
    let number = listed.number;
    if number != 0 {
        return lines::put_refusal(number, out);
    }
    let hems = listed.hems;
    hemlines::put_hems(&panels[..hems], &edges[..hems], &lengths[..hems], out, 0)
}
