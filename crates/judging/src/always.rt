// Walking a route that keeps to a set.
ghost use Rattle.std.specs.Prelude.{◌≡◌, ◌+◌, [], map};
ghost use Rattle.routing.specs.Net.{places};
ghost use Rattle.judging.specs.Judged.{covers, PerPlace};
ghost use Rattle.judging.specs.Chosen.{index_of, walk_always};
ghost use Rattle.judging.specs.Steps.{as_pos, Written, HasSteps};

use crate::next::next_into;
use crate::shown::{Ending, RouteStep, Shown};
use conditions::set::ConditionSet;
use routing::network::Network;

// The number at which a position was seen.
fn find_step(seen: &[RouteStep], at: RouteStep) -> Option<usize>
    ensures { result ≡ index_of (as_pos at) (map as_pos seen.now) }
{
    seen.iter().position(|step| at == *step)
}

// Walks from `start` within the sets until a position rests or was seen before, and writes the way to the front of `steps`.
pub(crate) fn walk_within<N: Network>(
    net: &N,
    sets: &[N::Set],
    start: RouteStep,
    steps: &mut [RouteStep],
) -> Shown
    requires sets { PerPlace (N.meaning net.now) sets.now }
    requires room { HasSteps (N.meaning net.now) steps.old }
    ensures { Written
        (walk_always (N.meaning net.now) (covers N.Set.ConditionSet.holds sets.now) (places (N.meaning net.now) + 1) []
        (as_pos start))
        steps.old steps.new result }
{
    let n = net.places();
    let mut at = start;
    // By number, since those before it are looked through, and it is written, in one list.
    for count in 0..n + 1 {
        if let Some(i) = find_step(&steps[0..count], at) {
            return Shown {
                count,
                ending: Ending::Returns(i),
            };
        }
        steps[count] = at;
        match next_into(net, sets, at) {
            Some(next) => at = next,
            None => return Shown {
                count: count + 1,
                ending: Ending::Rests,
            },
        }
    }
    Shown {
        count: n + 1,
        ending: find_step(&steps[0..n + 1], at).map_or(Ending::Rests, Ending::Returns),
    }
}
