// The explanation of a plan's report, for people: what the rules say in words, and the routes that break them.
#![tactic(auto)]

pub mod breaking;
pub mod explain;
mod parts;
mod phrase;
pub mod text;
mod words;
mod work;
