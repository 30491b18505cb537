// Judging the tables that a board keeps, on any network, and showing why one breaks.
ghost use Rattle.std.specs.Prelude.{◌≡◌, ◌+◌, ◌*◌, ◌<◌, ◌≤◌, ◌-◌, true, length, map, MatchResult};
ghost use Rattle.routing.specs.Net.{Within, places};
ghost use Rattle.routing.specs.Rules.{Means};
ghost use Rattle.tables.specs.Tables.{accepted};
ghost use Rattle.judging.specs.Breaking.{table_rule};
ghost use Rattle.judging.specs.Judged.{RoundsBefore};
ghost use Rattle.judging.specs.Steps.{as_pos};
ghost use Rattle.verdicts.specs.Verdicts.{Told};
ghost use Rattle.paper.specs.Refused.{most_rows};
ghost use Rattle.paper.specs.Rules.{ShownAsChosen, ShownRightly};
ghost use Rattle.board.specs.Answers.{showing, StepsKept};
ghost use Rattle.board.specs.Judged.{RulesJudged, RulesShown, TableJudged};
ghost use Rattle.board.specs.Possible.{all_accepted};
ghost use Rattle.board.specs.Tables.{rows_of};

use crate::board::KeptTable;
use crate::rejection::Failure;
use judging::breaking::show_breaking;
use judging::shown::RouteStep;
use routing::network::Network;
use tables::row::Row;
use verdicts::entries::judge_entries;
use verdicts::verdict::{Judgement, Verdict};

// What judging all rules says.
pub(crate) enum Verdicts {
    // Each rule holds at every entry under every setting; the sum of their rounds.
    AllHold(usize),
    // The first rule that breaks, the least entry at which it does, and the setting picked there.
    Breaks(usize, usize, u32),
}

// Judges an accepted table at the entries.
pub(crate) fn judge_table<N: Network>(
    net: &N,
    table: &[Row],
    main: &mut [N::Set],
    spare: &mut [N::Set],
) -> Judgement
    requires taken { accepted (N.meaning net.now).conditions table.now ≡ true }
    requires main { length table.now * places (N.meaning net.now) ≤ length main.old }
    requires spare { 2 * places (N.meaning net.now) ≤ length spare.old }
    ensures told { Told (N.meaning net.now) (Means (N.meaning net.now) (table_rule table.now)) result.verdict }
    ensures counted { RoundsBefore (N.meaning net.now) table.now (length table.now) result.rounds }
    ensures few { result.rounds ≤ 8192 }
{
    match judge_entries(net, table, main, spare) {
        Ok(judgement) => judgement,
        Err(_) => unreachable!(),
    }
}

// Shows why the rule of an accepted table breaks at a position.
pub(crate) fn show_failure<N: Network>(
    net: &N,
    table: &[Row],
    rule: usize,
    at: RouteStep,
    main: &mut [N::Set],
    spare: &mut [N::Set],
    steps: &mut [RouteStep],
) -> Failure
    requires taken { accepted (N.meaning net.now).conditions table.now ≡ true }
    requires main { length table.now * places (N.meaning net.now) ≤ length main.old }
    requires spare { 2 * places (N.meaning net.now) ≤ length spare.old }
    requires steps { places (N.meaning net.now) + 1 ≤ length steps.old }
    requires inside { Within (N.meaning net.now) (as_pos at) }
    requires breaks { ¬ (Means (N.meaning net.now) (table_rule table.now) (as_pos at)) }
    ensures rule { result.rule ≡ rule }
    ensures place { result.place ≡ at.place }
    ensures setting { result.setting ≡ at.setting }
    ensures chosen { ShownAsChosen (N.meaning net.now) table.now (as_pos at) (showing result.shown steps.new) }
    ensures shown { ShownRightly (N.meaning net.now) table.now (as_pos at) (showing result.shown steps.new) }
    ensures steps { StepsKept result.shown steps.old steps.new }
{
    let RouteStep { place, setting } = at;
    match show_breaking(net, table, at, main, spare, steps) {
        Ok(Some(broken)) => Failure {
            rule,
            place,
            setting,
            shown: Some(broken.shown),
        },
        Ok(None) => Failure {
            rule,
            place,
            setting,
            shown: None,
        },
        Err(_) => unreachable!(),
    }
}

// Judges accepted tables in their order, up to the first whose rule breaks.
pub(crate) fn judge_rules<N: Network>(
    net: &N,
    rules: &[KeptTable],
    main: &mut [N::Set],
    spare: &mut [N::Set],
) -> Verdicts
    requires few { length rules.now ≤ 8 }
    requires taken { all_accepted (N.meaning net.now).conditions (rows_of rules.now) ≡ true }
    requires main { most_rows (rows_of rules.now) * places (N.meaning net.now) ≤ length main.old }
    requires spare { 2 * places (N.meaning net.now) ≤ length spare.old }
    ensures { RulesJudged (N.meaning net.now) (rows_of rules.now) result }
{
    let mut rounds = 0;
    for (number, rule) in rules.iter().enumerate() {
        let judgement = judge_table(net, rule.as_slice(), main, spare);
        match judgement.verdict {
            Verdict::Holds => rounds += judgement.rounds,
            Verdict::Breaks(place, setting) => return Verdicts::Breaks(number, place, setting),
        }
    }
    Verdicts::AllHold(rounds)
}

// Judges all rules in their order, and shows why the first that breaks does; answers the sum of their rounds.
pub(crate) fn judge_with<N: Network>(
    net: &N,
    rules: &[KeptTable],
    main: &mut [N::Set],
    spare: &mut [N::Set],
    steps: &mut [RouteStep],
) -> Result<usize, Failure>
    requires few { length rules.now ≤ 8 }
    requires taken { all_accepted (N.meaning net.now).conditions (rows_of rules.now) ≡ true }
    requires main { most_rows (rows_of rules.now) * places (N.meaning net.now) ≤ length main.old }
    requires spare { 2 * places (N.meaning net.now) ≤ length spare.old }
    requires steps { places (N.meaning net.now) + 1 ≤ length steps.old }
    ensures judged { RulesShown (N.meaning net.now) (rows_of rules.now) steps.new result }
    ensures steps { MatchResult result (λ _. steps.new ≡ steps.old) (λ f. StepsKept f.shown steps.old steps.new) }
{
    match judge_rules(net, rules, main, spare) {
        Verdicts::AllHold(rounds) => Ok(rounds),
        Verdicts::Breaks(rule, place, setting) => {
            let at = RouteStep { place, setting };
            Err(show_failure(net, rules[rule].as_slice(), rule, at, main, spare, steps))
        }
    }
}

// Judges a table that would be the next rule, and shows why it breaks; answers its rounds.
pub(crate) fn judge_next<N: Network>(
    net: &N,
    rules: usize,
    table: &[Row],
    main: &mut [N::Set],
    spare: &mut [N::Set],
    steps: &mut [RouteStep],
) -> Result<usize, Failure>
    requires taken { accepted (N.meaning net.now).conditions table.now ≡ true }
    requires main { length table.now * places (N.meaning net.now) ≤ length main.old }
    requires spare { 2 * places (N.meaning net.now) ≤ length spare.old }
    requires steps { places (N.meaning net.now) + 1 ≤ length steps.old }
    ensures judged { TableJudged (N.meaning net.now) rules table.now steps.new result }
    ensures steps { MatchResult result (λ _. steps.new ≡ steps.old) (λ f. StepsKept f.shown steps.old steps.new) }
{
    let judgement = judge_table(net, table, main, spare);
    match judgement.verdict {
        Verdict::Holds => Ok(judgement.rounds),
        Verdict::Breaks(place, setting) => {
            let at = RouteStep { place, setting };
            Err(show_failure(net, table, rules, at, main, spare, steps))
        }
    }
}
