// The list of hems as rules: of each hem its panel, its number of edges and its length, and the numbers by which the list is refused
// (document 02, CR 13). There is no code here but the answer's type; the code stands in crates measured, ofpanel and listing.
#![tactic(auto)]

// The number returned, and how many hems the lists hold.
#[derive(Clone, Copy)]
pub struct Listed {
    pub number: u32,
    pub hems: usize,
}
