// A board as it would be with a change: a network of its own, so that nothing has to be rolled back.
ghost use Rattle.std.specs.Prelude.{◌≡◌, ◌≤◌, length, slice_get, true};
ghost use Rattle.board.specs.Entries.{bindings_of, kept_binding};
ghost use Rattle.paper.specs.Own.{changed};
ghost use Rattle.board.specs.Possible.{can_make, change_of};

use crate::board::Board;
use crate::own::KeptBinding;
use crate::prepared::Prepared;
use routing::network::Network;

#[derive(Drop)]
pub struct Proposed<'a, F: Network> {
    pub(crate) board: &'a Board<F>,
    pub(crate) change: Prepared<F::Set>,
    // How many own bindings there are with the change; each binding that is asked for needs it.
    pub(crate) count: usize,
    ghost possible: { can_make board.now.front.count (change_of change) (bindings_of board.now.own.items.items) ≡ true },
    ghost counted: { count ≡ length (changed (change_of change) (bindings_of board.now.own.items.items)) },
    ghost few: { count ≤ 128 },
}

// How many own bindings there are with a change that can be made.
#[tactic(auto, using(crate::proofs::Listed::length_reconditioned, crate::proofs::Listed::length_kept))]
pub(crate) fn count_with<F: Network>(board: &Board<F>, change: Prepared<F::Set>) -> usize
    requires possible { can_make board.now.front.count (change_of change) (bindings_of board.now.own.items.items) ≡ true }
    ensures value { result ≡ length (changed (change_of change) (bindings_of board.now.own.items.items)) }
    ensures few { result ≤ 128 }
{
    let len = board.own.len();
    match change {
        Prepared::Adds(_) => len + 1,
        Prepared::Removes(_) => len - 1,
        Prepared::Forwards(_, _) => len,
    }
}

impl<F: Network> Proposed<'_, F> {
    // How many own bindings there are with the change.
    pub(crate) fn len(&self) -> usize
        ensures value { result ≡ length (changed (change_of self.now.change) (bindings_of self.now.board.now.own.items.items)) }
        ensures few { result ≤ 128 }
    {
        self.count
    }

    // The own binding at a number, with the change.
    #[tactic(auto, using(crate::proofs::Listed::kept_get, crate::proofs::Listed::length_kept, crate::proofs::Listed::added_at, crate::proofs::Listed::added_other, crate::proofs::Listed::removed_other, crate::proofs::Listed::removed_behind, crate::proofs::Listed::reconditioned_at, crate::proofs::Listed::reconditioned_other))]
    pub(crate) fn entry(&self, number: usize) -> Option<KeptBinding<F::Set>>
        ensures { kept_binding result
            ≡ slice_get (changed (change_of self.now.change) (bindings_of self.now.board.now.own.items.items)) number }
    {
        let own = &self.board.own;
        match self.change {
            Prepared::Adds(entry) => {
                if number == own.len() {
                    Some(entry)
                } else {
                    own.get(number)
                }
            }
            Prepared::Removes(i) => {
                if number < i {
                    return own.get(number);
                }
                if number >= own.len() {
                    return None;
                }
                own.get(number + 1)
            }
            Prepared::Forwards(i, when) => {
                let Some(entry) = own.get(number) else {
                    return None;
                };
                if number == i {
                    Some(KeptBinding { when, ..entry })
                } else {
                    Some(entry)
                }
            }
        }
    }
}
