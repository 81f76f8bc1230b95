// What a contract allows is one result: whoever meets it answers the same number and leaves the same in every lent list. There is no
// code here. specs/Determined.antt has the statement and the list of the calls, proofs/Determined.antt why it holds of each.
// specs/Tied.antt ties the list to the contracts in the sources.
#![tactic(auto)]
