// The numbers of tickets.

/// The two numbers of a ticket: that of its board, and its serial. Anyone may read them.
#[derive(Clone, Copy, Debug, PartialEq, Eq)]
pub struct Numbers {
    pub board: u32,
    pub serial: u32,
}
