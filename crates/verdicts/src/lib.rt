// The verdict on a rule at the entries of a network, of a site table, and of one whose binding is shut for a time.
#![tactic(auto)]

pub mod entries;
pub mod rehearse;
mod shut;
pub mod site;
pub mod verdict;
