// How many pairs of a list are compared, counted from the one that stands first: in any order of the points there are as many. The rule
// and its laws, with no code.
#![tactic(auto)]
