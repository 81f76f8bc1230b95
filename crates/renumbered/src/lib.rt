// What a one-to-one renumbering of the positions keeps: the verdict, the hem edges, the house wires as rings, the panels; and so what
// compaction keeps. There is no code here: specs/ says it, proofs/ why it holds.
#![tactic(auto)]
