// What the list of hems comes to. There is no code here. In specs/, Promises.antt says it of one mesh, Order.antt of the same faces in
// another order and of two calls on them, Exports.antt of two exports of one cover, Numbers.antt which numbers are given, Unread.antt that no
// mark is read, Examples.antt what small covers come to; proofs/ says why it holds, and computes small covers.
#![tactic(auto)]
