// A mesh as a panel file, as rules: positions, texture points, normals, faces in their order, end (document 02, CR 1); what the writer
// answers; and what they come to, above all that a mesh that is written and read again is the same mesh. There is no code here but the
// answer's type; it stands in crate saving.
#![tactic(auto)]

// The writer's answer: its number, and how many bytes the file has.
#[derive(Clone, Copy)]
pub struct Saved {
    pub number: u32,
    pub length: usize,
}
