// The trait of networks. Asking a network changes nothing.
ghost use Rattle.std.specs.Prelude.{◌≡◌, ◌≤◌, ◌&&◌, length, IfSome, Some, MatchOption, nat_lt, slice_index};
ghost use Rattle.std.specs.List.{slice_get};
ghost use Rattle.conditions.specs.Sets.{bit};
ghost use Rattle.routing.specs.Net.{Net, places};
ghost use Rattle.routing.specs.Bindings.{linked, Inside, Fits};

use crate::binding::Binding;
use conditions::set::ConditionSet;

// The most places and the most bindings of a network.
pub const MOST_PLACES: usize = 256;

pub const MOST_BINDINGS: usize = 4096;

// The number of marks of a place.
pub const MARKS: u8 = 32;

pub trait Network {
    // The sets of settings that the bindings carry.
    type Set: ConditionSet;

    // What the network means.
    ghost meaning: { Self → Net };

    // What each implementation shows of it.
    ghost fits: { (n : Self) → Fits (meaning n) };

    // The number of places.
    fn places(&self) -> usize
        ensures { result ≡ places (meaning self.now) };

    // The number of bindings.
    fn bindings(&self) -> usize
        ensures { result ≡ length (meaning self.now).bindings };

    // The marks of a place, bit k for mark k; absent beyond the last place.
    fn marks(&self, place: usize) -> Option<u32>
        ensures { result ≡ slice_get (meaning self.now).marks place };

    // The binding at a number; absent beyond the last binding. Its ends are places.
    fn binding(&self, number: usize) -> Option<Binding<Self::Set>>
        ensures value { MatchOption result (length (meaning self.now).bindings ≤ number)
            (λ b. slice_get (meaning self.now).bindings number ≡ Some (linked Self.Set.ConditionSet.holds b)) }
        ensures ends { IfSome result
            (λ b. Inside (places (meaning self.now)) (linked Self.Set.ConditionSet.holds b)) };

    // The settings of a position are those that the sets are over.
    ghost over: { (n : Self) → (meaning n).conditions ≡ Self.Set.ConditionSet.count };
}

// Whether a place of the network has mark k. There is no mark beyond the last place, nor above 31.
pub fn has_mark<N: Network>(net: &N, place: usize, k: u8) -> bool
    ensures { result ≡ (nat_lt k 32 && bit (slice_index (N.meaning net.now).marks place) k) }
{
    k < MARKS && net.marks(place).unwrap_or(0) >> k & 1 == 1
}
