// A board: own places and bindings in front of a far network, with rules that were adopted and stay true while changes are
// proposed, revised, admitted and withdrawn.
//
// The calls are in `board`, and `play` plays a list of them on a new board; its contract carries the law of the crate `paper`.
#![tactic(auto)]

pub mod board;
pub mod call;
mod front;
mod judged;
mod network;
pub mod opening;
mod own;
pub mod play;
mod prepared;
mod proposed;
pub mod rejection;
pub mod ticket;
mod when;
