// Rule tables: their rows, and which tables are accepted.
#![tactic(auto)]

pub mod row;
pub mod table;
