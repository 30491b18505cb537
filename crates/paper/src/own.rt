// Own bindings of a board.

/// An own binding: it forwards orders from one place to another when every condition of `on` is on and every one of `off`
/// is off, bit k for condition k. With both 0 it always forwards; with a condition in both it never does.
#[derive(Clone, Copy, Debug, PartialEq, Eq)]
pub struct OwnBinding {
    pub from: u16,
    pub to: u16,
    pub on: u16,
    pub off: u16,
}
