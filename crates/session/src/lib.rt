// Scripts for a board: a list of calls as text, which is read, played in front of a network, and answered by lines of text.
#![tactic(auto)]

pub mod answers;
mod calls;
pub mod fault;
mod line;
pub mod play;
pub mod script;
