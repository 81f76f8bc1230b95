// Tries the check of a mesh on both sides of every limit of the table of numbers returned, the part of a face on both sides of its
// own, compaction, compaction in place and the sheet with exactly their room and less, and `push` on both sides of each of its limits, and prints what each
// answers: the row, what was tried, and the number. The rooms of the other calls, and numbers 6 to 10, are tried by `try_replay`.
//
// The lists that are tried stand where the call is, and the functions above pass numbers alone: what a function costs to prove goes
// by the references that it has, times its calls.
#![tactic(auto)]

mod fronts;
mod in_place;
mod parts;
mod pushing;
mod rooms;
mod rows;
mod show;

fn main() {
    rows::rows();
    parts::parts();
    rooms::compaction_rooms();
    in_place::number_rooms();
    rooms::sheet_rooms();
    pushing::push_limits();
}
