// No rule tests the mark of a corner, and it moves with its corner (document 02, CR 11). There is no code here. In specs/, Marks.antt says what
// it is to change marks and nothing else, Promises.antt what each rule makes of it, Calls.antt says it of the calls of cleaning, Order.antt that
// marks don't matter to demand 3, and Examples.antt shows marks after cleaning.
//
// Why it holds: changing marks goes corner by corner and leaves the first three numbers (proofs/Remarked.antt), and every rule reads those alone.
#![tactic(auto)]
