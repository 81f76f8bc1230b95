// The order of faces does not matter: what two meshes with the same faces have in common. There is no code here. specs/ has the
// relation and what it promises, proofs/ why it holds.
#![tactic(auto)]
