// Walking down the noted rounds to a position with q.
ghost use Rattle.std.specs.Prelude.{◌≡◌, ◌<◌, ◌≤◌, length};
ghost use Rattle.routing.specs.Net.{places};
ghost use Rattle.judging.specs.Notes.{noted_next, setting_by, walk_noted};
ghost use Rattle.judging.specs.Steps.{as_next, as_pos, Written};
ghost use Rattle.judging.specs.declared.shown.Ending.TheVariants.{Reaches};

use crate::next::first_entry;
use crate::notes::Note;
use crate::shown::{Ending, RouteStep, Shown};
use conditions::set::ConditionSet;
use routing::network::Network;

// The setting of a noted entry that came by round `by`.
fn entry_by(note: Option<Note>, by: usize) -> Option<u32>
    ensures { result ≡ setting_by by note }
{
    note.filter(|note| note.round <= by)
        .map(|note| note.setting)
}

// The noted entry to which the first binding that fits leads from `at`, of those that came by round `by`.
fn nearest<N: Network>(
    net: &N,
    notes: &[Option<Note>],
    by: usize,
    at: RouteStep,
) -> Option<RouteStep>
    requires room { places (N.meaning net.now) ≤ length notes.now }
    ensures { result ≡ as_next (noted_next (N.meaning net.now) notes.now by (as_pos at)) }
{
    first_entry(net, at, |place| entry_by(notes[place], by))
}

// Walks down the notes from `start` in so many hops, and writes the way to the front of `steps`.
pub(crate) fn walk_down<N: Network>(
    net: &N,
    notes: &[Option<Note>],
    start: RouteStep,
    hops: usize,
    steps: &mut [RouteStep],
) -> Shown
    requires room { places (N.meaning net.now) ≤ length notes.now }
    requires list { hops < length steps.old }
    ensures { Written
        (record { positions = walk_noted (N.meaning net.now) notes.now hops (as_pos start); ending = Reaches })
        steps.old steps.new result }
{
    let mut at = start;
    // By number, since nothing is known of elements that an iterator over a part of a list lends for writing.
    for count in 0..hops {
        steps[count] = at;
        match nearest(net, notes, hops - count - 1, at) {
            Some(next) => at = next,
            None => return Shown {
                count: count + 1,
                ending: Ending::Reaches,
            },
        }
    }
    steps[hops] = at;
    Shown {
        count: hops + 1,
        ending: Ending::Reaches,
    }
}
