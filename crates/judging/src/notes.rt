// Noting, round by round, when each place is first entered on the way to E[p U q].
ghost use Rattle.std.specs.Prelude.{◌≡◌, ℕ, suc, ◌<◌, ◌≤◌, length, IfSome, None};
ghost use Rattle.routing.specs.Net.{Within, places};
ghost use Rattle.rounds.specs.Truth.{grown};
ghost use Rattle.judging.specs.Judged.{covers, PerPlace};
ghost use Rattle.judging.specs.Chosen.{entering, least_from};
ghost use Rattle.judging.specs.Notes.{note_of, noted_at, Noted};
ghost use Rattle.judging.specs.Steps.{as_pos};

use crate::next::entry_at;
use crate::row_rounds::steps_into;
use crate::sets::{combine, widened};
use crate::shown::RouteStep;
use conditions::set::ConditionSet;
use routing::network::Network;

// The round in which a place was first entered, and the setting that was picked then.
#[derive(Clone, Copy)]
pub(crate) struct Note {
    pub(crate) round: usize,
    pub(crate) setting: u32,
}

// Notes each place that is entered and was not noted before.
fn note_entered<N: Network>(net: &N, sets: &[N::Set], round: usize, notes: &mut [Option<Note>])
    requires sets { PerPlace (N.meaning net.now) sets.now }
    requires room { length sets.now ≤ length notes.old }
    ensures { (t : ℕ) → t < length sets.now
        → note_of notes.new t
        ≡ noted_at (note_of notes.old t)
        (entering (N.meaning net.now) (covers N.Set.ConditionSet.holds sets.now) t) round }
{
    // By number, by which the entry of a place is asked and its note is written.
    for place in 0..sets.len() {
        if notes[place].is_none() {
            if let Some(setting) = entry_at(net, sets, place) {
                notes[place] = Some(Note { round, setting });
            }
        }
    }
}

// Goes through the rounds of E[p U q] until `start` is in the set, and notes the places on the way.
// `part` has q; answers the round, which is the fewest hops from `start` to q.
pub(crate) fn note_rounds<N: Network>(
    net: &N,
    part: &mut [N::Set],
    p: &[N::Set],
    into: &mut [N::Set],
    start: RouteStep,
    notes: &mut [Option<Note>],
) -> Option<usize>
    requires part { PerPlace (N.meaning net.now) part.old }
    requires p { PerPlace (N.meaning net.now) p.now }
    requires into { PerPlace (N.meaning net.now) into.old }
    requires room { places (N.meaning net.now) ≤ length notes.old }
    requires inside { Within (N.meaning net.now) (as_pos start) }
    requires fresh { (t : ℕ) → t < places (N.meaning net.now) → note_of notes.old t ≡ None }
    ensures hops { result ≡ least_from (suc (places (N.meaning net.now))) 0
        (λ i. grown (N.meaning net.now)
        (covers N.Set.ConditionSet.holds p.now) (covers N.Set.ConditionSet.holds part.old) i (as_pos start)) }
    ensures notes { IfSome result (λ d. Noted (N.meaning net.now)
        (grown (N.meaning net.now) (covers N.Set.ConditionSet.holds p.now) (covers N.Set.ConditionSet.holds part.old))
        d notes.new) }
{
    let n = net.places();
    for round in 0..n + 1 {
        let here = part[start.place];
        if here.contains(start.setting) {
            return Some(round);
        }
        note_entered(net, part, round, notes);
        steps_into(net, part, into);
        let _ = combine(part, p, into, widened);
    }
    None
}
