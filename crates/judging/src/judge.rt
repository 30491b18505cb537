// Judging a network against a rule table.
ghost use Rattle.std.specs.Prelude.{◌≡◌, ◌*◌, ◌≤◌, true, length, IfOk, OnErr};
ghost use Rattle.std.specs.Result.{result_err};
ghost use Rattle.routing.specs.Net.{places};
ghost use Rattle.tables.specs.Tables.{accepted};
ghost use Rattle.judging.specs.Judged.{Judged, judge_refusal, HasHalves};

use crate::work::judge_row;
use conditions::set::ConditionSet;
use routing::network::Network;
use routing::refusal::Refusal;
use tables::row::Row;
use tables::table::{is_accepted, read_row};

// Judges the rows in order; answers the sum of their rounds.
pub(crate) fn judge_rows<N: Network>(
    net: &N,
    table: &[Row],
    main: &mut [N::Set],
    spare: &mut [N::Set],
) -> usize
    requires taken { accepted (N.meaning net.now).conditions table.now ≡ true }
    requires room { length table.now * places (N.meaning net.now) ≤ length main.old }
    requires halves { HasHalves (N.meaning net.now) spare.old }
    ensures { Judged N.Set.ConditionSet.holds (N.meaning net.now) table.now main.old main.new result }
{
    let conditions = N::Set::conditions();
    let mut rounds = 0;
    for (number, row) in table.iter().enumerate() {
        if let Some(op) = read_row(*row, number, conditions) {
            rounds += judge_row(net, op, number, main, spare);
        }
    }
    rounds
}

// Judges the network against every row of the table.
//
// The settings under which row r holds at place s are written to number r × places + s of the main
// list, whose rest is left as it is; the spare is used on the way. Answers the rounds.
pub fn judge<N: Network>(
    net: &N,
    table: &[Row],
    main: &mut [N::Set],
    spare: &mut [N::Set],
) -> Result<usize, Refusal>
    ensures refusal { result_err result
        ≡ judge_refusal (N.meaning net.now) table.now (length main.old) (length spare.old) }
    ensures judged { IfOk result
        (Judged N.Set.ConditionSet.holds (N.meaning net.now) table.now main.old main.new) }
    ensures main { OnErr result (main.new ≡ main.old) }
    ensures spare { OnErr result (spare.new ≡ spare.old) }
{
    if !is_accepted(table, N::Set::conditions()) {
        return Err(Refusal::BadTable);
    }
    let n = net.places();
    if main.len() < table.len() * n || spare.len() < 2 * n {
        return Err(Refusal::TooShort);
    }
    Ok(judge_rows(net, table, main, spare))
}
