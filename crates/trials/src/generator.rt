// Networks, rule tables and rule texts, drawn from a fixed seed.

pub mod network;
pub mod random;
pub mod sets;
pub mod table;
pub mod text;
