// The board on paper: own bindings and changes of them, the calls of a board and what they are answered, and the law that
// every list of calls keeps.
//
// specs/ has it all: what each call does to the board on paper (Does), what the answers tell (History), and the law (Law).
// law_stands carries what holds of every run (Claims): it keeps the law, its history tells the board that it leaves, and every list
// of calls is answered, in one way. No board is named there: that a real board does just this stands on the contracts of the crate `board`.
#![tactic(auto)]

pub mod change;
pub mod law;
pub mod numbers;
pub mod own;
pub mod room;
