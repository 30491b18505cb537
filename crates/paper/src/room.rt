// The lists that a call is lent.

/// The lengths of the lists that a call is lent: of the main list and the spare, in sets, and of the steps list, in positions.
#[derive(Clone, Copy, Debug, PartialEq, Eq)]
pub struct Room {
    pub main: usize,
    pub spare: usize,
    pub steps: usize,
}
