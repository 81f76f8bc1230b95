// Compaction as rules: which entries the corners use, their new numbers, the new lists, the number, the room; and what they come to
// (document 01, 'Compaction'). There is no code here; the code stands in crates oneindex, compaction and inplace.
#![tactic(auto)]
