// Where ported and house wires are the same. There is no code here: specs/ says it, proofs/ why it holds.
#![tactic(auto)]
