// What demand 3 says of the calls: two meshes with the same faces, each given to the calls. There is no code here. specs/Calls.antt
// says what a call is, specs/Order.antt what two of them have in common, specs/Begun.antt shows on small
// meshes what is not promised, and that hems that touch stay apart.
#![tactic(auto)]
