// House wires that turn through the cloth (document 02, request 5). There is no code here: specs/ has the rule, and the same over rows of
// uses as code has them; proofs/ what holds of it.
#![tactic(auto)]
