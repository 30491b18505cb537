// Changes of the own bindings.
use crate::own::OwnBinding;

/// What a proposal would change.
#[derive(Clone, Copy, Debug, PartialEq, Eq)]
pub enum Change {
    /// Adds a binding behind the own ones.
    Bind(OwnBinding),
    /// Takes out the own binding at a number; later ones move down.
    Unbind(usize),
    /// Changes the two numbers `on` and `off` of the own binding at a number, in this order.
    Recondition(usize, u16, u16),
}
