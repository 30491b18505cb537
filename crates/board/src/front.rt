// The own places of a board, and the far network behind them.
ghost use Rattle.std.specs.Prelude.{◌≡◌, ◌+◌, ◌≤◌, ◌<◌, ◌++◌, ◌↔◌, ℕ, List, Some, length, map, slice_get, MatchOption, IfOk, IfErr, IfSome, IsOk};
ghost use Rattle.routing.specs.Bindings.{linked, Inside};
ghost use Rattle.routing.specs.Net.{places};
ghost use Rattle.paper.specs.Paper.{moved};

use arrayvec::ArrayVec;
use conditions::set::ConditionSet;
use routing::binding::Binding;
use routing::network::{MOST_PLACES, Network};

// The most own places, and far bindings.
pub const MOST_OWN_PLACES: usize = 64;

const MOST_FAR_BINDINGS: usize = 3968;

#[derive(Drop)]
pub struct Front<F: Network> {
    pub(crate) marks: ArrayVec<u32, MOST_OWN_PLACES>,
    pub(crate) far: F,
    // All places, own and far.
    pub(crate) count: usize,
    pub(crate) conditions: u32,
    ghost counted: { count ≡ length marks.items + places (F.Network.meaning far) },
    ghost few_places: { count ≤ 256 },
    ghost few_bindings: { length (F.Network.meaning far).bindings ≤ 3968 },
    ghost over: { conditions ≡ F.Set.ConditionSet.count },
}

impl<F: Network> Front<F> {
    // Takes a far network that leaves room for the own places, or hands it back.
    pub(crate) fn new(own: &[u32], far: F) -> Result<Front<F>, F>
        ensures fits { IsOk result
            ↔ ((length own.now ≤ 64) × (length own.now + places (F.Network.meaning far) ≤ 256)
            × (length (F.Network.meaning far).bindings ≤ 3968)) }
        ensures marks { IfOk result (λ f. f.marks.items ≡ own.now) }
        ensures far { IfOk result (λ f. f.far ≡ far) }
        ensures back { IfErr result (λ f. f ≡ far) }
    {
        let mut marks = ArrayVec::new();
        if marks.try_extend_from_slice(own).is_err() {
            return Err(far);
        }
        let count = own.len() + far.places();
        if count > MOST_PLACES || far.bindings() > MOST_FAR_BINDINGS {
            return Err(far);
        }
        Ok(Front {
            marks,
            far,
            count,
            conditions: F::Set::conditions(),
        })
    }

    // The far network.
    pub(crate) fn into_far(self) -> F
        ensures { result ≡ self.far }
    {
        let Front {
            marks: _,
            far,
            count: _,
            conditions: _,
        } = self;
        far
    }

    // The marks of a place, own or far.
    pub(crate) fn marks(&self, place: usize) -> Option<u32>
        ensures { result ≡ slice_get (self.now.marks.items ++ (F.Network.meaning self.now.far).marks) place }
    {
        let own = self.marks.len();
        if place < own {
            return self.marks.as_slice().get(place).copied();
        }
        self.far.marks(place - own)
    }

    // The far binding at a number, its ends moved past the own places.
    pub(crate) fn far_binding(&self, number: usize) -> Option<Binding<F::Set>>
        ensures value { MatchOption result (length (F.Network.meaning self.now.far).bindings ≤ number)
            (λ b. slice_get (map (moved (length self.now.marks.items)) (F.Network.meaning self.now.far).bindings) number
            ≡ Some (linked F.Set.ConditionSet.holds b)) }
        ensures ends { IfSome result (λ b. Inside self.now.count (linked F.Set.ConditionSet.holds b)) }
    {
        let own = self.marks.len() as u16;
        let binding = self.far.binding(number)?;
        Some(Binding {
            from: own + binding.from,
            to: own + binding.to,
            set: binding.set,
        })
    }
}
