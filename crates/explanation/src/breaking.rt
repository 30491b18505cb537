// Why a rule breaks, in words: where, and the route that shows it.
use conditions::set::ConditionSet;
use conditions::word::Word;
use judging::breaking::{BreakingForm, breaking_form};
use judging::shown::{Ending, RouteStep};
use std::alloc::AllocError;
use std::fmt;
use tables::row::Row;

// The number of the operation about one step, EX.
const STEP_OPERATION: u8 = 6;

// The conditions that are on under a setting.
#[derive(Clone, Copy)]
struct Setting(u32);

impl fmt::Display for Setting {
    fn fmt<W: fmt::Write>(&self, f: &mut fmt::Formatter<W>) -> fmt::Result {
        if self.0 == 0 {
            return f.write_str("no condition on");
        }
        for k in 0..Word::conditions() {
            if self.0 >> k & 1 == 1 {
                write!(f, "c{k} ")?;
            }
        }
        f.write_str("on")
    }
}

/// A route that shows why a rule breaks: its steps, how it ends, and whether the rule is about steps.
#[derive(Clone, Copy)]
pub struct BreakingRoute<'a> {
    pub steps: &'a [RouteStep],
    pub ending: Ending,
    pub is_of_step: bool,
}

/// Whether what breaks the rule of a table is a single step.
pub fn is_of_step(rows: &[Row]) -> bool {
    match breaking_form(rows) {
        BreakingForm::One(row) => rows
            .get(row)
            .is_some_and(|row| row.operation == STEP_OPERATION),
        _ => false,
    }
}

// Adds how a route ends. A single step may lead back to where it began.
fn add_ending(out: &mut String, route: BreakingRoute<'_>) -> Result<(), AllocError> {
    match route.ending {
        Ending::Reaches => out.push_str("  and reaches a position that the rule forbids.\n"),
        Ending::Rests => out.push_str("  and rests there: no step leads on.\n"),
        Ending::Returns(number) if route.is_of_step => writeln!(
            out,
            "  and steps back to position {number}, a position that the rule forbids."
        ),
        Ending::Returns(number) => writeln!(
            out,
            "  and goes round for ever from position {number}."
        ),
    }
}

// Adds a position of a route by its number.
fn add_step(out: &mut String, number: usize, step: RouteStep) -> Result<(), AllocError> {
    let RouteStep { place, setting } = step;
    writeln!(out, "    {number}: place {place}, {}", Setting(setting))
}

// Adds the positions of a route, and how it ends.
fn add_route(out: &mut String, route: BreakingRoute<'_>) -> Result<(), AllocError> {
    out.push_str("  This route breaks it:\n")?;
    for (number, step) in route.steps.iter().enumerate() {
        add_step(out, number, *step)?;
    }
    add_ending(out, route)
}

/// Adds the entry and the setting at which a rule breaks, and the route that shows it, if there is one.
pub fn add_breaking(
    out: &mut String,
    at: RouteStep,
    route: Option<BreakingRoute<'_>>,
) -> Result<(), AllocError> {
    let RouteStep { place, setting } = at;
    writeln!(
        out,
        "  It breaks at the entry {place} with {}.",
        Setting(setting)
    )?;
    match route {
        Some(route) => add_route(out, route),
        None => out.push_str("  No single route shows why a rule of this form breaks.\n"),
    }
}
