// The scanner's own file, binary STL, as rules: where its points stand, which of them are one position, the mesh, the number and what the
// call answers; and what they come to (document 02, 'CR 8'). There is no code here; it stands in crates widening, matching and scanfile.
#![tactic(auto)]
