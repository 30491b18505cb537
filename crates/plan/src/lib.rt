// Plan files: a network of word sets and up to eight rules as text.
//
// specs/ has the format: Numbers and Format (the bytes of a plan), Contents (what the fields of a file hold),
// Shape (the faults of a file, in order), Put (bytes written into a list), Reading and Writing (what reading and writing
// come to), Files (what a plan that was read means) and Claims (what holds of the format).
#![tactic(auto)]

mod bytes;
pub mod fault;
mod fields;
pub mod file;
pub mod format;
mod layout;
pub mod oversize;
mod shape;
mod text;
pub mod write;
