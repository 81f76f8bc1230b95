// The panels that joins between faces make: the rule of the search, the steps of the code, and why the steps come to the rule. There is
// no code here; it stands in crate searching.
#![tactic(auto)]
