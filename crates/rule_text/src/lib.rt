// Rules as text: reading them into tables for judging.
//
// specs/ has the language: Words and Texts (bytes to words), Grammar (words to rules, and which
// word can follow), Levels, Rows (the table of a rule), Faults, and Reading (what each text comes
// to).
#![tactic(auto)]

mod emit;
pub mod fault;
pub mod grammar;
mod parse;
pub mod read;
mod reader;
mod spell;
mod split;
pub mod table;
pub mod word;
