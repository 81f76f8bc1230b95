// What two exports of one cover have in common: positions may be renumbered one-to-one, texture points and normals numbered anew, and
// faces put in another order, each begun at any corner. There is no code here. In specs/, Covers.antt says what two exports keep,
// Sheets.antt which lines of two sheets are the same, and that the hems are, as rings of points. What other numbers and compaction keep
// stands in crate renumbered.
#![tactic(auto)]
