// The reader of the panel file as rules: record by record up to an end record, then what follows it, and what the call answers; and what
// they come to (document 01, 'The panel file and the sheet'). There is no code here but the answer's type; it stands in crates drawing
// and panelfile.
#![tactic(auto)]

// The reader's answer: its number, and how many positions, texture points, normals, corners and faces the mesh has.
#[derive(Clone, Copy)]
pub struct MeshRead {
    pub number: u32,
    pub positions: usize,
    pub textures: usize,
    pub normals: usize,
    pub corners: usize,
    pub faces: usize,
}
