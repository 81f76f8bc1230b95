// The twelve examples of document 01 and that of document 02's request 5, proved of the definitions by a single statement over a list of
// them: specs/Twelve.antt has the list, proofs/Hold.antt the statement.
#![tactic(auto)]
