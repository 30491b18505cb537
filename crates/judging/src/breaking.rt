// Showing why the rule of a table breaks at a position.
ghost use Rattle.std.specs.Prelude.{◌≡◌, ◌*◌, ◌≤◌, true, length, MatchOption, slice_index_or};
ghost use Rattle.std.specs.Result.{result_err};
ghost use Rattle.routing.specs.Net.{Within, places};
ghost use Rattle.tables.specs.Tables.{accepted, coded, no_row};
ghost use Rattle.judging.specs.declared.breaking.BreakingForm.TheVariants.{Other};
ghost use Rattle.judging.specs.Breaking.{BreakingAnswer, ShowsWhy, breaking_form as form_of, rule_refusal};
ghost use Rattle.judging.specs.Judged.{WrittenBefore};
ghost use Rattle.judging.specs.Steps.{as_pos};

use crate::judge::judge_rows;
use crate::route::settings;
use crate::showing::{holds_at, show_row};
use crate::shown::{RouteStep, Shown};
use conditions::set::ConditionSet;
use routing::network::Network;
use routing::refusal::Refusal;
use tables::row::{Operation, Row};
use tables::table::{is_accepted, read_row};

/// The rows of a table of which a route shows why its rule breaks, by the form of the table alone.
///
/// A rule about every step or every route is "not p": what breaks it is a step or a route that p says there is.
#[derive(Clone, Copy, Debug, PartialEq, Eq)]
pub enum BreakingForm {
    /// The last row is "not p", and this row p is one of operation 6, 7 or 8 (AX, AG, AF).
    One(usize),
    /// The last row is "not p" and p is "q or r": these rows q of operation 7 and r of operation 8 (A until).
    Either(usize, usize),
    /// The table has another form: no single route shows why its rule breaks.
    Other,
}

/// A row that shows why a rule breaks, and what is shown of it.
#[derive(Clone, Copy, Debug, PartialEq, Eq)]
pub struct Broken {
    /// The number of the row.
    pub row: usize,
    /// What is shown of it.
    pub shown: Shown,
}

// The row at a number, where there is one; else one of operation 0.
fn row_at(table: &[Row], number: usize) -> Row
    ensures { result ≡ slice_index_or table.now number no_row }
{
    match table.get(number) {
        Some(row) => *row,
        None => Row::from(Operation::Yes),
    }
}

/// The rows of a table of which a route shows why its rule breaks. Any table has a form, an accepted one or not.
pub fn breaking_form(table: &[Row]) -> BreakingForm
    ensures { result ≡ form_of table.now }
{
    let rule = row_at(table, table.len().saturating_sub(1));
    if rule.operation != 3 {
        return BreakingForm::Other;
    }
    let p = row_at(table, usize::from(rule.first));
    match p.operation {
        6..=8 => BreakingForm::One(usize::from(rule.first)),
        5 => {
            let (q, r) = (usize::from(p.first), usize::from(p.second));
            if row_at(table, q).operation == 7 && row_at(table, r).operation == 8 {
                BreakingForm::Either(q, r)
            } else {
                BreakingForm::Other
            }
        }
        _ => BreakingForm::Other,
    }
}

// Tests the table and the position, of which a rule is asked why it breaks.
fn check_rule<N: Network>(net: &N, table: &[Row], at: RouteStep) -> Result<(), Refusal>
    ensures { result_err result ≡ rule_refusal (N.meaning net.now) table.now (as_pos at) }
{
    if !is_accepted(table, N::Set::conditions()) {
        return Err(Refusal::BadTable);
    }
    if at.place >= net.places() || at.setting >= settings::<N::Set>() {
        return Err(Refusal::BadQuery);
    }
    Ok(())
}

// The row that shows why the rule breaks at a position, where the table is judged; absent where no row does.
fn row_to_show<N: Network>(net: &N, table: &[Row], main: &[N::Set], at: RouteStep) -> Option<usize>
    requires taken { accepted (N.meaning net.now).conditions table.now ≡ true }
    requires judged { WrittenBefore N.Set.ConditionSet.holds (N.meaning net.now) table.now (length table.now) main.now }
    requires room { length table.now * places (N.meaning net.now) ≤ length main.now }
    requires inside { Within (N.meaning net.now) (as_pos at) }
    ensures { MatchOption result (form_of table.now ≡ Other)
        (λ row. ShowsWhy (N.meaning net.now) table.now (as_pos at) (form_of table.now) row) }
{
    match breaking_form(table) {
        BreakingForm::One(p) => Some(p),
        BreakingForm::Either(q, r) => Some(if holds_at(net, main, q, at) { q } else { r }),
        BreakingForm::Other => None,
    }
}

// The same, with the row's operation.
fn breaking_row<N: Network>(
    net: &N,
    table: &[Row],
    main: &[N::Set],
    at: RouteStep,
) -> Option<(usize, Operation)>
    requires taken { accepted (N.meaning net.now).conditions table.now ≡ true }
    requires judged { WrittenBefore N.Set.ConditionSet.holds (N.meaning net.now) table.now (length table.now) main.now }
    requires room { length table.now * places (N.meaning net.now) ≤ length main.now }
    requires inside { Within (N.meaning net.now) (as_pos at) }
    ensures { MatchOption result (form_of table.now ≡ Other)
        (λ (row, op). ShowsWhy (N.meaning net.now) table.now (as_pos at) (form_of table.now) row
        × (coded op ≡ slice_index_or table.now row no_row)) }
{
    let row = row_to_show(net, table, main, at)?;
    let op = read_row(row_at(table, row), row, N::Set::conditions())?;
    Some((row, op))
}

/// Shows why the rule of a table, its last row, breaks at a position of the network.
///
/// Judges the table, and answers the row that shows why the rule breaks there with what is shown of it, as `route` shows
/// that row: different positions at the front of `steps`, how many there are, and how the route ends. Answers `None`, and
/// leaves `steps`, where the table has a form of which no single route shows it.
///
/// Refused by `BadTable`, by `BadQuery` where the place or the setting is none of the network, by `TooShort` as `route` is,
/// and by `RowFails` where the rule holds at the position. The work space is free afterwards, unless the call was refused
/// before it judged.
pub fn show_breaking<N: Network>(
    net: &N,
    table: &[Row],
    at: RouteStep,
    main: &mut [N::Set],
    spare: &mut [N::Set],
    steps: &mut [RouteStep],
) -> Result<Option<Broken>, Refusal>
    ensures { BreakingAnswer (N.meaning net.now) table.now (as_pos at)
        main.old main.new spare.old spare.new steps.old steps.new result }
{
    check_rule(net, table, at)?;
    let n = net.places();
    if main.len() < table.len() * n || spare.len() < 2 * n || steps.len() < n + 1 {
        return Err(Refusal::TooShort);
    }
    let _ = judge_rows(net, table, main, spare);
    if holds_at(net, main, table.len() - 1, at) {
        return Err(Refusal::RowFails);
    }
    let Some((row, op)) = breaking_row(net, table, main, at) else {
        return Ok(None);
    };
    let shown = show_row(net, op, row, at, main, spare, steps);
    Ok(Some(Broken { row, shown }))
}
