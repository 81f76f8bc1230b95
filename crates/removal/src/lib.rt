// The removal of folded faces as rules: which faces are left, which face each came from, the number, the room; and what they come to
// (document 01, 'Folded faces', and change request 3). There is no code here; the code stands in crates allfaces and folded.
#![tactic(auto)]
