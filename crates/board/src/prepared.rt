// A change with the set of the settings under which its binding forwards.
ghost use Rattle.std.specs.Prelude.{◌≡◌, ⊤};
ghost use Rattle.board.specs.Possible.{change_of};

use crate::own::KeptBinding;
use crate::when::When;
use conditions::set::ConditionSet;
use paper::change::Change;
use std::alloc::AllocError;

// The set is worked out once, when the change is put.
pub enum Prepared<S: ConditionSet> {
    // Adds an own binding behind the others.
    Adds(KeptBinding<S>),
    // Takes out the own binding at a number.
    Removes(usize),
    // Changes when the own binding at a number forwards.
    Forwards(usize, When<S>),
}

impl<S: ConditionSet> Clone for Prepared<S> {
    ghost is_clone = { λ x y. y ≡ x };

    ghost is_infallible = { λ _. ⊤ };

    fn clone(&self) -> Result<Prepared<S>, AllocError> {
        Ok(*self)
    }
}

impl<S: ConditionSet> Copy for Prepared<S> {}

impl<S: ConditionSet> Prepared<S> {
    pub(crate) fn new(change: Change) -> Prepared<S>
        ensures { change_of result ≡ change }
    {
        match change {
            Change::Bind(binding) => Prepared::Adds(KeptBinding::new(binding)),
            Change::Unbind(i) => Prepared::Removes(i),
            Change::Recondition(i, on, off) => Prepared::Forwards(i, When::new(on, off)),
        }
    }
}
