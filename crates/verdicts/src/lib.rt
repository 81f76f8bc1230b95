// Verdict and hem edges as rules over the list of all edges of a mesh, and what they come to (document 01, 'Edges, verdict and wires').
// There is no code here; it stands in crate edges.
#![tactic(auto)]
