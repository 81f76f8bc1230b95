// A ring is split where two of its elements have equal keys. There is no code here. specs/ has the rule, over any elements and any key,
// and what it promises, proofs/ why that holds. A face's corners with their positions as keys are one case of it, in crate folding.
#![tactic(auto)]
