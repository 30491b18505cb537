// The answers of a script's calls, as lines of text.
use crate::script::Script;
use board::call::{Answer, Call, ShownRoute, TurnedDown};
use board::rejection::TURNED_DOWN;
use explanation::breaking::{BreakingRoute, add_breaking, is_of_step};
use judging::shown::{Ending, RouteStep};
use routing::refusal::Refusal;
use std::alloc::{AllocError, Global};
use tables::row::Row;

// Adds how a route ends, and its positions.
fn add_route(out: &mut String, route: &ShownRoute) -> Result<(), AllocError> {
    match route.ending {
        Ending::Reaches => out.push_str(" reaches")?,
        Ending::Rests => out.push_str(" rests")?,
        Ending::Returns(number) => write!(out, " returns:{number}")?,
    }
    for step in &route.steps {
        write!(out, " {},{}", step.place, step.setting)?;
    }
    Ok(())
}

// Adds the line of a rule or a change that was turned down.
fn add_turned_down(out: &mut String, down: &TurnedDown) -> Result<(), AllocError> {
    let TurnedDown {
        rule,
        place,
        setting,
        route,
    } = down;
    write!(out, "refused {TURNED_DOWN} {rule} {place} {setting}")?;
    match route {
        Some(route) => add_route(out, route)?,
        None => out.push_str(" none")?,
    }
    out.push_str("\n")
}

// Adds the line of an answer.
fn add_answer(out: &mut String, answer: &Answer) -> Result<(), AllocError> {
    match answer {
        Answer::Refused(refusal) => writeln!(out, "refused {}", refusal.number()),
        Answer::Proposed(numbers) | Answer::Revised(numbers) => {
            writeln!(out, "ok {} {}", numbers.board, numbers.serial)
        }
        Answer::Adopted(count) | Answer::Stood(count) | Answer::Open(count) => {
            writeln!(out, "ok {count}")
        }
        Answer::TurnedDown(down) => add_turned_down(out, down),
        Answer::Withdrawn => out.push_str("ok\n"),
    }
}

// Adds in words why the rule of a table breaks.
fn add_why(out: &mut String, rows: &[Row], down: &TurnedDown) -> Result<(), AllocError> {
    let at = RouteStep {
        place: down.place,
        setting: down.setting,
    };
    let route = match &down.route {
        Some(route) => Some(BreakingRoute {
            steps: &route.steps,
            ending: route.ending,
            is_of_step: is_of_step(rows),
        }),
        None => None,
    };
    add_breaking(out, at, route)
}

// Adds in words why a call was turned down, and keeps the table of a rule that was adopted behind those before.
fn add_words<'a>(
    out: &mut String,
    rules: &mut Vec<&'a [Row]>,
    call: &'a Call,
    answer: &Answer,
) -> Result<(), AllocError> {
    match (call, answer) {
        (Call::Adopt(rows, _), Answer::Adopted(_)) => Ok(rules.push(rows)?),
        (Call::Adopt(rows, _), Answer::TurnedDown(down)) => add_why(out, rows, down),
        (_, Answer::TurnedDown(down)) => match rules.get(down.rule) {
            Some(rows) => add_why(out, rows, down),
            None => Ok(()),
        },
        _ => Ok(()),
    }
}

/// The lines of a script that was played: that of the opening, and one for each call. With `explain`, words below each call
/// that was turned down say where the rule breaks, and on which route.
pub fn answer_lines(
    alloc: Global,
    script: &Script,
    answers: &[Answer],
    explain: bool,
) -> Result<String, AllocError> {
    let mut out = String::from_str(alloc, "ok\n")?;
    let mut rules = Vec::new(alloc);
    for (call, answer) in script.calls.iter().zip(answers) {
        add_answer(&mut out, answer)?;
        if explain {
            add_words(&mut out, &mut rules, call, answer)?;
        }
    }
    Ok(out)
}

/// The only line of a script whose opening is refused.
pub fn refused_opening(alloc: Global, refusal: Refusal) -> Result<String, AllocError> {
    format!(in alloc; "refused {}\n", refusal.number())
}

/// Whether a call was refused or turned down.
pub fn is_any_refused(answers: &[Answer]) -> bool {
    answers.iter().any(|answer| matches!(answer, Answer::Refused(_) | Answer::TurnedDown(_)))
}
