// All edges of one house wire lie in one panel. There is no code here: specs/ says it, proofs/ why it holds.
#![tactic(auto)]
