// What is printed of a plan file: a line for each rule with its verdict, or one line for the refusal of the file.
//
// specs/Lines has the lines and what they say; Outcomes has the report of a file.
#![tactic(auto)]

pub mod file;
mod lines;
pub mod outcome;
pub mod printed;
pub mod rule;
