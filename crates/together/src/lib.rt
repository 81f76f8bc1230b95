// Merging as rules: the number, the pairs, the centre and the representative of a group, the corners; and what they come to (document 01,
// 'Merging'). There is no code here but the answer's type; the code stands in crate merging.
#![tactic(auto)]

// The number, and how many pairs were compared among positions, texture points and normals.
#[derive(Clone, Copy)]
pub struct Merged {
    pub number: u32,
    pub positions: usize,
    pub textures: usize,
    pub normals: usize,
}
