// Sets of settings over a fixed number K of conditions.
//
// A condition is on or off. A setting says which conditions are on: it is a number below 2^K whose
// bit k is 1 where condition k is on. A set of settings is what a binding carries: the settings
// under which it forwards.
#![tactic(auto)]

pub mod plain;
pub mod set;
pub mod word;
