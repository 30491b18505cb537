// The next position of a shown route.
ghost use Rattle.std.specs.Prelude.{◌≡◌, ℕ, ◌<◌, length, Option};
ghost use Rattle.routing.specs.Net.{Pos, places};
ghost use Rattle.judging.specs.Judged.{covers, PerPlace};
ghost use Rattle.judging.specs.Chosen.{at_place, entering, next_in};
ghost use Rattle.judging.specs.Notes.{first_link};
ghost use Rattle.judging.specs.Callbacks.{Gives};
ghost use Rattle.judging.specs.Steps.{as_next, as_pos};

use crate::shown::RouteStep;
use conditions::set::ConditionSet;
use routing::network::Network;

// The position that the first binding from `at` leads to, of those whose place has an entry. `entry` gives the setting of a place's entry.
pub(crate) fn first_entry<N: Network, F: Fn(usize) -> Option<u32>>(
    net: &N,
    at: RouteStep,
    entry: F,
) -> Option<RouteStep>
    requires callable { (t : ℕ) → t < places (N.meaning net.now) → F.pre entry t }
    ensures { (enter : ℕ → Option Pos) → Gives (places (N.meaning net.now)) (F.post entry) enter
        → result ≡ as_next (first_link enter (as_pos at) (N.meaning net.now).bindings) }
{
    // By number, as a network answers its bindings.
    for i in 0..net.bindings() {
        if let Some(b) = net.binding(i) {
            if b.from as usize == at.place && b.set.contains(at.setting) {
                let place = b.to as usize;
                if let Some(setting) = entry(place) {
                    return Some(RouteStep { place, setting });
                }
            }
        }
    }
    None
}

// The setting of the position that is entered at a place, if the sets have one there.
pub(crate) fn entry_at<N: Network>(net: &N, sets: &[N::Set], place: usize) -> Option<u32>
    requires sets { PerPlace (N.meaning net.now) sets.now }
    requires inside { place < length sets.now }
    ensures { at_place place result
        ≡ entering (N.meaning net.now) (covers N.Set.ConditionSet.holds sets.now) place }
{
    let set = sets[place];
    set.pick()
}

// The position to which the first binding that fits leads from `at` into the sets.
pub(crate) fn next_into<N: Network>(net: &N, sets: &[N::Set], at: RouteStep) -> Option<RouteStep>
    requires { PerPlace (N.meaning net.now) sets.now }
    ensures { result
        ≡ as_next (next_in (N.meaning net.now) (covers N.Set.ConditionSet.holds sets.now) (as_pos at)) }
{
    first_entry(net, at, |place| entry_at(net, sets, place))
}
