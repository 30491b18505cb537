// The command line of the program: it reads a plan, prints its report, and on demand explains it; or plays a script on a board in
// front of the plan's network.
#![tactic(auto)]

pub mod command;
pub mod help;
mod input;
mod output;
mod play;
pub mod problem;
pub mod refused;
pub mod run;
