// Files from before kind 5 are read as they were: the reader that document 02, CR 6, found, kept for this, and what the reader of today has
// in common with it. There is no code here: specs/ says it, proofs/ why it holds.
#![tactic(auto)]
