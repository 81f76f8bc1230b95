// The figures of the hem file (document 02, CR 13) by computation: which number each file gets, at both sides of each figure and in the order
// of the numbers, and whole sheets from bytes to bytes. There is no code here.
#![tactic(auto)]
