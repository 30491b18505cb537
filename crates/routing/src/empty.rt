// The network with no places, over any condition set.
ghost use Rattle.std.specs.Prelude.{[], refl};
ghost use Rattle.routing.specs.Bindings.{net_of};
ghost use Rattle.routing.specs.Fitting.{empty_fits};

use crate::binding::Binding;
use crate::network::Network;
use conditions::set::ConditionSet;
use std::marker::PhantomData;

#[derive(Clone, Copy)]
pub struct Empty<S> {
    set: PhantomData<S>,
}

// By hand, since the derived one would ask for `S: Default`.
impl<S> Default for Empty<S> {
    fn default() -> Empty<S> {
        Empty { set: PhantomData }
    }
}

impl<S: ConditionSet> Network for Empty<S> {
    type Set = S;

    ghost meaning = { λ _. net_of S.ConditionSet.count S.ConditionSet.holds [] [] };

    ghost fits = { λ _. empty_fits S.ConditionSet.count S.ConditionSet.holds };

    ghost over = { λ _. refl };

    fn places(&self) -> usize {
        0
    }

    fn bindings(&self) -> usize {
        0
    }

    fn marks(&self, place: usize) -> Option<u32> {
        None
    }

    fn binding(&self, number: usize) -> Option<Binding<S>> {
        None
    }
}
