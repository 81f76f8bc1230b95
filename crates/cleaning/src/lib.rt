// What cleaning a mesh means, for the products over it. There is no code here: specs/ says it, proofs/ why it holds.
#![tactic(auto)]
