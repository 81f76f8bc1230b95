// Cleaning in any sensible order (document 02, CR 10): removal of folded faces and compaction, one after the other. There is no code here.
// In specs/, Orders.antt says which orders are sensible, Promises.antt what they leave, Calls.antt says it of the calls, and Needed.antt shows
// why an order has to be sensible and a mesh accepted.
//
// Why it holds: compaction renumbers positions one-to-one, and the removal only asks which positions are equal (proofs/Changed.antt); and
// numbers by first use, taken twice, are numbers by first use (proofs/Columns.antt).
#![tactic(auto)]
