// One step of the reader of the panel file: the record at its place is taken apart, case by case, and drawn into lists of the reader's own;
// a refusal stops the reading there, with its number. The definitions that a caller cites stand in specs/Taking.antt.
#![tactic(auto)]

ghost use Rattle.std.specs.Prelude.{◌≡◌, List, length, Float};
ghost use Rattle.mesh.specs.Limits.{face_limit, corner_numbers};
ghost use Rattle.mesh.specs.Mesh.{mesh_of};
ghost use Rattle.records.specs.declared.Record.TheVariants.{Face};
ghost use Rattle.records.specs.Records.{record_from};
ghost use Rattle.steps.specs.Working.{stopped_with, Able, Ready, Stepped};

use records::Record;

// How far the reading is: the next record's place, the number of a refusal, whether the end record was met, and how many
// positions, texture points, normals, corners and faces are drawn.
#[derive(Clone, Copy)]
pub struct Progress {
    pub at: usize,
    pub number: u32,
    pub ended: bool,
    pub positions: usize,
    pub textures: usize,
    pub normals: usize,
    pub corners: usize,
    pub faces: usize,
}

// The record at the reader's place.
pub fn step(
    file: &[u8],
    positions: &mut [f64],
    textures: &mut [f64],
    normals: &mut [f64],
    corners: &mut [u32],
    sizes: &mut [u32],
    x: Progress,
) -> Progress
    requires { Ready (length file.now) x (mesh_of positions.old textures.old normals.old corners.old sizes.old) }
    ensures { Stepped file.now (record_from file.now x.at) x result
        (mesh_of positions.old textures.old normals.old corners.old sizes.old)
        (mesh_of positions.new textures.new normals.new corners.new sizes.new) }
{
    match records::record_at(file, x.at) {
        Record::Position(p) => {
            if mesh::ENTRIES <= x.positions {
                return stopped(x, 1);
            }
            floating::put_point(p, positions, x.positions);
            Progress {
                at: x.at + records::POINT_RECORD,
                positions: x.positions + 1,
                ..x
            }
        }
        Record::Texture(t) => {
            if mesh::ENTRIES <= x.textures {
                return stopped(x, 1);
            }
            lists::put(&[t.u, t.v], textures, 2 * x.textures);
            Progress {
                at: x.at + records::TEXEL_RECORD,
                textures: x.textures + 1,
                ..x
            }
        }
        Record::Normal(p) => {
            if mesh::ENTRIES <= x.normals {
                return stopped(x, 1);
            }
            floating::put_point(p, normals, x.normals);
            Progress {
                at: x.at + records::POINT_RECORD,
                normals: x.normals + 1,
                ..x
            }
        }
        Record::Face(a, n, marked) => step_face(file, a, n, marked, corners, sizes, x),
        Record::End => Progress {
            at: x.at + records::HEADER_LENGTH,
            ended: true,
            ..x
        },
        Record::Refused(number) => stopped(x, number),
    }
}

// A face of n corners, the first of them at a.
fn step_face(
    file: &[u8],
    a: usize,
    n: u32,
    marked: bool,
    corners: &mut [u32],
    sizes: &mut [u32],
    x: Progress,
) -> Progress
    requires able { Able (length file.now) (Face a n marked) x }
    requires corners { length corners.old ≡ corner_numbers }
    requires sizes { length sizes.old ≡ face_limit }
    ensures { (p t n' : List Float) → Stepped file.now (Face a n marked) x result
        (mesh_of p t n' corners.old sizes.old)
        (mesh_of p t n' corners.new sizes.new) }
{
    let m = n as usize;
    let next = records::corner_place(marked, a, m);
    if m < 3 {
        return Progress { at: next, ..x };
    }
    let more = x.corners + m;
    if mesh::CORNERS < more {
        return stopped(x, 1);
    }
    records::put_ring(marked, file, a, m, corners, x.corners);
    sizes[x.faces] = n;
    Progress {
        at: next,
        corners: more,
        faces: x.faces + 1,
        ..x
    }
}

// The reader, stopped with a number.
fn stopped(x: Progress, number: u32) -> Progress
    ensures { result ≡ stopped_with x number }
{
    Progress { number, ..x }
}
