// Showing a route for a judged row.
ghost use Rattle.std.specs.Prelude.{◌≡◌, ◌+◌, ◌*◌, ◌<◌, ◌≤◌, true, length};
ghost use Rattle.routing.specs.Net.{Within, places};
ghost use Rattle.tables.specs.Tables.{coded};
ghost use Rattle.judging.specs.Chosen.{chosen_next, chosen_until, next_in};
ghost use Rattle.judging.specs.Judged.{covers, row_part, PerPlace, HasHalves, HasPart};
ghost use Rattle.judging.specs.Shapes.{first_is_row, second_is_row};
ghost use Rattle.judging.specs.Steps.{as_pos, chosen_by, Written, HasSteps};

use crate::always::walk_within;
use crate::next::next_into;
use crate::notes::note_rounds;
use crate::sets::part_of;
use crate::shown::{Ending, RouteStep, Shown};
use crate::until::walk_down;
use crate::work::copy_operand;
use conditions::set::ConditionSet;
use routing::network::{MOST_PLACES, Network};
use tables::row::Operation;

// Shows one step into the sets.
fn show_next<N: Network>(net: &N, sets: &[N::Set], at: RouteStep, steps: &mut [RouteStep]) -> Shown
    requires sets { PerPlace (N.meaning net.now) sets.now }
    requires room { 2 ≤ length steps.old }
    ensures { Written
        (chosen_next (as_pos at) (next_in (N.meaning net.now) (covers N.Set.ConditionSet.holds sets.now) (as_pos at)))
        steps.old steps.new result }
{
    steps[0] = at;
    match next_into(net, sets, at) {
        Some(next) => {
            if next == at {
                return Shown {
                    count: 1,
                    ending: Ending::Returns(0),
                };
            }
            steps[1] = next;
            Shown {
                count: 2,
                ending: Ending::Reaches,
            }
        }
        None => Shown {
            count: 1,
            ending: Ending::Rests,
        },
    }
}

// Shows the fewest hops to q, which `part` has, with p before it.
fn walk_until<N: Network>(
    net: &N,
    part: &mut [N::Set],
    p: &[N::Set],
    into: &mut [N::Set],
    at: RouteStep,
    steps: &mut [RouteStep],
) -> Shown
    requires part { PerPlace (N.meaning net.now) part.old }
    requires p { PerPlace (N.meaning net.now) p.now }
    requires into { PerPlace (N.meaning net.now) into.old }
    requires inside { Within (N.meaning net.now) (as_pos at) }
    requires room { HasSteps (N.meaning net.now) steps.old }
    ensures { Written
        (chosen_until (N.meaning net.now)
        (covers N.Set.ConditionSet.holds p.now) (covers N.Set.ConditionSet.holds part.old) (as_pos at))
        steps.old steps.new result }
{
    let mut notes = [None; MOST_PLACES];
    match note_rounds(net, part, p, into, at, &mut notes) {
        Some(hops) => walk_down(net, &notes, at, hops, steps),
        None => Shown {
            count: 0,
            ending: Ending::Reaches,
        },
    }
}

// Shows a row of operation `Until`; the row's own part of the main list and the spare are used on the way.
fn show_until<N: Network>(
    net: &N,
    p: u8,
    q: u8,
    row: usize,
    at: RouteStep,
    main: &mut [N::Set],
    spare: &mut [N::Set],
    steps: &mut [RouteStep],
) -> Shown
    requires first { p < row }
    requires second { q < row }
    requires inside { Within (N.meaning net.now) (as_pos at) }
    requires room { HasPart (N.meaning net.now) row main.old }
    requires halves { HasHalves (N.meaning net.now) spare.old }
    requires list { HasSteps (N.meaning net.now) steps.old }
    ensures { Written
        (chosen_until (N.meaning net.now)
        (covers N.Set.ConditionSet.holds (row_part (places (N.meaning net.now)) p main.old))
        (covers N.Set.ConditionSet.holds (row_part (places (N.meaning net.now)) q main.old)) (as_pos at))
        steps.old steps.new result }
{
    let n = net.places();
    let (first, rest) = spare.split_at_mut(n);
    let second = &mut rest[0..n];
    copy_operand(Some(p), n, main, first);
    copy_operand(Some(q), n, main, second);
    let part = &mut main[row * n..row * n + n];
    part.copy_from_slice(second);
    walk_until(net, part, first, second, at, steps)
}

// Whether a judged row has the position.
pub(crate) fn holds_at<N: Network>(net: &N, main: &[N::Set], row: usize, at: RouteStep) -> bool
    requires room { HasPart (N.meaning net.now) row main.now }
    requires inside { at.place < places (N.meaning net.now) }
    ensures { result
        ≡ covers N.Set.ConditionSet.holds (row_part (places (N.meaning net.now)) row main.now) (as_pos at) }
{
    let part = part_of(main, row, net.places());
    let set = part[at.place];
    set.contains(at.setting)
}

// Shows a judged row at a position where it holds; `main` holds the row and its operands.
pub(crate) fn show_row<N: Network>(
    net: &N,
    op: Operation,
    row: usize,
    at: RouteStep,
    main: &mut [N::Set],
    spare: &mut [N::Set],
    steps: &mut [RouteStep],
) -> Shown
    requires first { first_is_row op ≡ true → (coded op).first < row }
    requires second { second_is_row op ≡ true → (coded op).second < row }
    requires inside { Within (N.meaning net.now) (as_pos at) }
    requires room { HasPart (N.meaning net.now) row main.old }
    requires halves { HasHalves (N.meaning net.now) spare.old }
    requires list { HasSteps (N.meaning net.now) steps.old }
    ensures { Written
        (chosen_by (N.meaning net.now) op
        (covers N.Set.ConditionSet.holds (row_part (places (N.meaning net.now)) (coded op).first main.old))
        (covers N.Set.ConditionSet.holds (row_part (places (N.meaning net.now)) (coded op).second main.old))
        (covers N.Set.ConditionSet.holds (row_part (places (N.meaning net.now)) row main.old)) (as_pos at))
        steps.old steps.new result }
{
    let n = net.places();
    match op {
        Operation::Next(p) => show_next(net, part_of(main, p as usize, n), at, steps),
        Operation::Until(p, q) => show_until(net, p, q, row, at, main, spare, steps),
        Operation::Always(_) => walk_within(net, part_of(main, row, n), at, steps),
        _ => Shown {
            count: 0,
            ending: Ending::Rests,
        },
    }
}
