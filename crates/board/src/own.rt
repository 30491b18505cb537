// The table of own bindings.
ghost use Rattle.std.specs.Prelude.{◌≡◌, ◌≤◌, ◌<◌, ◌∷◌, ◌++◌, [], length, map, vec_capacity, slice_get, remove, IfOk, true, ⊤};
ghost use Rattle.board.specs.Entries.{binding_of, bindings_of, with_when};
ghost use Rattle.routing.specs.Bindings.{linked};
ghost use Rattle.paper.specs.Own.{changed, own_link};
ghost use Rattle.board.specs.Possible.{change_of, can_make_in};

use crate::prepared::Prepared;
use crate::when::When;
use conditions::set::ConditionSet;
use paper::own::OwnBinding;
use routing::binding::Binding;
use std::alloc::{AllocError, Global};

// The most own bindings.
pub const MOST_OWN_BINDINGS: usize = 128;

// An own binding with the set of the settings under which it forwards.
pub struct KeptBinding<S: ConditionSet> {
    pub(crate) from: u16,
    pub(crate) to: u16,
    pub(crate) when: When<S>,
}

impl<S: ConditionSet> Clone for KeptBinding<S> {
    ghost is_clone = { λ x y. y ≡ x };

    ghost is_infallible = { λ _. ⊤ };

    fn clone(&self) -> Result<KeptBinding<S>, AllocError> {
        Ok(*self)
    }
}

impl<S: ConditionSet> Copy for KeptBinding<S> {}

impl<S: ConditionSet> KeptBinding<S> {
    pub(crate) fn new(binding: OwnBinding) -> KeptBinding<S>
        ensures { binding_of result ≡ binding }
    {
        KeptBinding {
            from: binding.from,
            to: binding.to,
            when: When::new(binding.on, binding.off),
        }
    }

    // The binding that it is in a network.
    pub(crate) fn binding(self) -> Binding<S>
        ensures { linked S.ConditionSet.holds result ≡ own_link S.ConditionSet.count (binding_of self) }
    {
        Binding {
            from: self.from,
            to: self.to,
            set: self.when.set,
        }
    }
}

// Its room is reserved at opening, so that no later change can want for memory.
#[derive(Drop)]
pub struct OwnTable<S: ConditionSet> {
    items: Vec<KeptBinding<S>>,
    ghost room: { 128 ≤ vec_capacity items },
    ghost few: { length items.items ≤ 128 },
}

impl<S: ConditionSet> OwnTable<S> {
    pub(crate) fn open(alloc: Global) -> Result<OwnTable<S>, AllocError>
        ensures { IfOk result (λ t. t.items.items ≡ []) }
    {
        let items = Vec::with_capacity(alloc, MOST_OWN_BINDINGS)?;
        Ok(OwnTable { items })
    }

    pub(crate) fn len(&self) -> usize
        ensures value { result ≡ length self.now.items.items }
        ensures few { result ≤ 128 }
    {
        self.items.len()
    }

    pub(crate) fn get(&self, i: usize) -> Option<KeptBinding<S>>
        ensures { result ≡ slice_get self.now.items.items i }
    {
        self.items.get(i).copied()
    }

    pub(crate) fn add(&mut self, entry: KeptBinding<S>)
        requires { length self.old.items.items < 128 }
        ensures { self.new.items.items ≡ self.old.items.items ++ entry ∷ [] }
    {
        self.items.push_reserved(entry);
    }

    pub(crate) fn remove(&mut self, i: usize)
        requires { i < length self.old.items.items }
        ensures { self.new.items.items ≡ remove self.old.items.items i }
    {
        let _ = self.items.remove(i);
    }

    // One entry is lent, and when it forwards is changed.
    pub(crate) fn recondition(&mut self, i: usize, when: When<S>)
        requires { i < length self.old.items.items }
        ensures { self.new.items.items ≡ with_when i when self.old.items.items }
    {
        let entry = &mut self.items[i];
        entry.when = when;
    }

    // Makes a change that can be made.
    pub(crate) fn make(&mut self, change: Prepared<S>)
        requires { can_make_in (change_of change) (bindings_of self.old.items.items) ≡ true }
        ensures { bindings_of self.new.items.items ≡ changed (change_of change) (bindings_of self.old.items.items) }
    {
        match change {
            Prepared::Adds(entry) => self.add(entry),
            Prepared::Removes(i) => self.remove(i),
            Prepared::Forwards(i, when) => self.recondition(i, when),
        }
    }
}
