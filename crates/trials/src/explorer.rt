// The explorer: a second judge, explicit over the positions of a network, one by one.
//
// Of the crates that are tried it uses only the traits of networks and of condition sets, which give the steps, and the
// operations of rows.

pub mod always;
pub mod graph;
pub mod positions;
pub mod rows;
pub mod settled;
pub mod until;
