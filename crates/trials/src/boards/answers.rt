// What a board answered, compared with what the second board and the explorer say.
use crate::boards::calls::{Outcome, Plan};
use crate::boards::second::{Expected, Fall};
use crate::boards::sets::Build;
use crate::boards::tally::{BoardTally, Seen};
use crate::explorer::graph::Graph;
use crate::explorer::rows::Rows;
use crate::routes::is_shown;
use board::call::{Answer, Call, TurnedDown};
use judging::shown::{Ending, RouteStep};
use paper::change::Change;
use routing::site::SiteTable;
use std::alloc::{AllocError, Global};
use tables::row::Operation;

fn operation_at(rows: &Rows, number: u8) -> Operation {
    match rows.found.get(usize::from(number)) {
        Some(found) => found.operation,
        None => Operation::Yes,
    }
}

// The row whose route shows why the last row, "not p", fails at a position, with the form that this is.
fn breaking_row(rows: &Rows, at: usize) -> Option<(u8, Seen)> {
    let Operation::Not(p) = rows.found.last()?.operation else {
        return None;
    };
    match operation_at(rows, p) {
        Operation::Next(_) => Some((p, Seen::NextBroken)),
        Operation::Until(_, _) => Some((p, Seen::AlwaysBroken)),
        Operation::Always(_) => Some((p, Seen::FutureBroken)),
        Operation::Or(q, r) => match (operation_at(rows, q), operation_at(rows, r)) {
            (Operation::Until(_, _), Operation::Always(_)) => Some(if rows.operand(q).contains(at) {
                (q, Seen::UntilEnded)
            } else {
                (r, Seen::UntilWaiting)
            }),
            _ => None,
        },
        _ => None,
    }
}

fn ending_kind(ending: Ending) -> Seen {
    match ending {
        Ending::Reaches => Seen::Reaching,
        Ending::Rests => Seen::Resting,
        Ending::Returns(_) => Seen::Returning,
    }
}

// Compares what is shown of a rule that breaks: a route of the right row, or none.
fn compare_route(rows: &Rows, got: &TurnedDown, tally: &mut BoardTally) -> Result<(), AllocError> {
    let at = RouteStep {
        place: got.place,
        setting: got.setting,
    };
    let position = rows.graph.number(at.place, at.setting);
    let right = match (breaking_row(rows, position), &got.route) {
        (Some((row, kind)), Some(route)) => {
            tally.add(kind);
            tally.add(ending_kind(route.ending));
            is_shown(rows, row, at, &route.steps, route.ending)?
        }
        (None, None) => {
            tally.add(Seen::OtherBroken);
            true
        }
        _ => false,
    };
    tally.add_if(Seen::WrongRoutes, !right);
    Ok(())
}

// Compares what is said of a rule that breaks.
fn compare_fall<S: Build>(
    heap: Global,
    fall: &Fall<S>,
    got: &TurnedDown,
    tally: &mut BoardTally,
) -> Result<(), AllocError> {
    let right = got.rule == fall.rule && got.place == fall.place && got.setting == fall.setting;
    tally.add_if(Seen::WrongAnswers, !right);
    if right {
        match SiteTable::open(&fall.net.marks, &fall.net.bindings) {
            Ok(site) => {
                let graph = Graph::of(heap, &site)?;
                compare_route(&Rows::of(&graph, &fall.table)?, got, tally)?;
            }
            Err(_) => tally.add(Seen::Faults),
        }
    }
    Ok(())
}

// Compares an answer other than that a rule breaks.
fn is_answer<S: Build>(expected: &Expected<S>, answer: &Answer) -> bool {
    match (expected, answer) {
        (Expected::Refused(why), Answer::Refused(refusal)) => *refusal == why.refusal(),
        (Expected::Adopted(rounds), Answer::Adopted(got)) => *got == *rounds,
        (Expected::Proposed(numbers), Answer::Proposed(got)) => *got == *numbers,
        (Expected::Revised(numbers), Answer::Revised(got)) => *got == *numbers,
        (Expected::Stood(rounds), Answer::Stood(got)) => *got == *rounds,
        (Expected::Withdrawn, Answer::Withdrawn) => true,
        (Expected::Open(count), Answer::Open(got)) => *got == *count,
        _ => false,
    }
}

// Counts a rule that breaks, of a board with so many own places.
fn count_fall<S: Build>(fall: &Fall<S>, own_places: usize, tally: &mut BoardTally) {
    tally.add(match fall.change {
        None => Seen::RulesDown,
        Some(Change::Bind(_)) => Seen::BindsDown,
        Some(Change::Unbind(_)) => Seen::UnbindsDown,
        Some(Change::Recondition(_, _, _)) => Seen::ReconditionsDown,
    });
    tally.add_if(Seen::LaterRules, fall.change.is_some() && fall.rule > 0);
    tally.add(if fall.place < own_places {
        Seen::OwnEntries
    } else {
        Seen::FarEntries
    });
    tally.add(if S::conditions() == 0 {
        Seen::PlainDown
    } else {
        Seen::WordDown
    });
}

// Counts what a call has to be answered.
fn count_call<S: Build>(
    call: &Call,
    expected: &Expected<S>,
    own_places: usize,
    tally: &mut BoardTally,
) {
    tally.add(Seen::Calls);
    match expected {
        Expected::Refused(why) => tally.add_refused(call, *why),
        Expected::Adopted(_) => tally.add(Seen::Adopted),
        Expected::Proposed(_) => tally.add(Seen::Proposed),
        Expected::Revised(_) => tally.add(Seen::Revised),
        Expected::Stood(_) => tally.add(Seen::Stood),
        Expected::TurnedDown(fall) => count_fall(fall, own_places, tally),
        Expected::Withdrawn => tally.add(Seen::Withdrawn),
        Expected::Open(_) => tally.add(Seen::OpenAsked),
        Expected::Nothing => tally.add(Seen::Faults),
    }
}

// Compares the answer to a call.
fn compare_answer<S: Build>(
    heap: Global,
    outcome: &Outcome<S>,
    answer: &Answer,
    tally: &mut BoardTally,
) -> Result<(), AllocError> {
    match (&outcome.expected, answer) {
        (Expected::TurnedDown(fall), Answer::TurnedDown(got)) => {
            compare_fall(heap, fall, got, tally)
        }
        (expected, answer) => {
            tally.add_if(Seen::WrongAnswers, !is_answer(expected, answer));
            Ok(())
        }
    }
}

// Compares the answers to the calls of a list.
pub fn compare_answers<S: Build>(
    heap: Global,
    plan: &Plan<S>,
    answers: &[Answer],
    own_places: usize,
    tally: &mut BoardTally,
) -> Result<(), AllocError> {
    tally.add_if(Seen::WrongAnswers, answers.len() != plan.calls.len());
    for (number, outcome) in plan.outcomes.iter().enumerate() {
        if let (Some(call), Some(answer)) = (plan.calls.get(number), answers.get(number)) {
            count_call(call, &outcome.expected, own_places, tally);
            compare_answer(heap, outcome, answer, tally)?;
        }
    }
    Ok(())
}
