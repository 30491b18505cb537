// Asking for a route that shows a row.
ghost use Rattle.std.specs.Prelude.{◌≡◌, ◌^◌, IfOk, slice_index_or};
ghost use Rattle.std.specs.Result.{result_err};
ghost use Rattle.tables.specs.Tables.{coded, no_row};
ghost use Rattle.judging.specs.Answers.{RouteAnswer};
ghost use Rattle.judging.specs.Queries.{query_refusal};
ghost use Rattle.judging.specs.Steps.{as_pos};

use crate::judge::judge_rows;
use crate::showing::{holds_at, show_row};
use crate::shown::{RouteStep, Shown};
use conditions::set::ConditionSet;
use routing::network::Network;
use routing::refusal::Refusal;
use tables::row::{Operation, Row};
use tables::table::{is_accepted, read_row};

// The number of settings.
pub(crate) fn settings<S: ConditionSet>() -> u32
    ensures { result ≡ 2 ^ S.ConditionSet.count }
{
    1 << S::conditions()
}

// The operation of the asked row, which must be one about steps or routes, or why the question is refused.
fn asked<N: Network>(
    net: &N,
    table: &[Row],
    row: usize,
    at: RouteStep,
) -> Result<Operation, Refusal>
    ensures refusal { result_err result ≡ query_refusal (N.meaning net.now) table.now row (as_pos at) }
    ensures row { IfOk result (λ op. coded op ≡ slice_index_or table.now row no_row) }
{
    let conditions = N::Set::conditions();
    if !is_accepted(table, conditions) {
        return Err(Refusal::BadTable);
    }
    if at.place >= net.places() || at.setting >= settings::<N::Set>() {
        return Err(Refusal::BadQuery);
    }
    let Some(found) = table.get(row) else {
        return Err(Refusal::BadQuery);
    };
    match read_row(*found, row, conditions) {
        Some(op @ (Operation::Next(_) | Operation::Until(_, _) | Operation::Always(_))) => Ok(op),
        _ => Err(Refusal::BadQuery),
    }
}

// Shows a route for row `row` of the table at a position. The row's operation must be `Next`, `Until` or `Always`.
//
// Judges the table, writes different positions to the front of `steps`, the first being the asked one,
// and answers how many there are and how the route ends. The work space is free afterwards.
pub fn route<N: Network>(
    net: &N,
    table: &[Row],
    row: usize,
    at: RouteStep,
    main: &mut [N::Set],
    spare: &mut [N::Set],
    steps: &mut [RouteStep],
) -> Result<Shown, Refusal>
    ensures { RouteAnswer (N.meaning net.now) table.now row (as_pos at)
        main.old main.new spare.old spare.new steps.old steps.new result }
{
    let op = asked(net, table, row, at)?;
    let n = net.places();
    if main.len() < table.len() * n || spare.len() < 2 * n || steps.len() < n + 1 {
        return Err(Refusal::TooShort);
    }
    let _ = judge_rows(net, table, main, spare);
    if !holds_at(net, main, row, at) {
        return Err(Refusal::RowFails);
    }
    Ok(show_row(net, op, row, at, main, spare, steps))
}
