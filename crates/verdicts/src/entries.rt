// Judging the last row of a table at the entries of a network.
ghost use Rattle.std.specs.Prelude.{◌≡◌, ◌-◌, length, IfOk, OnErr};
ghost use Rattle.std.specs.Result.{result_err};
ghost use Rattle.routing.specs.Rules.{Means};
ghost use Rattle.rounds.specs.Claims.{Is};
ghost use Rattle.tables.specs.Tables.{rule_at};
ghost use Rattle.judging.specs.Judged.{Judged, PerPlace, covers, judge_refusal};
ghost use Rattle.verdicts.specs.Verdicts.{Told};

use crate::verdict::{Judgement, Verdict};
use conditions::set::ConditionSet;
use judging::judge::judge;
use routing::network::{Network, has_mark};
use routing::refusal::Refusal;
use tables::row::Row;

// The verdict on the positions that `part` has. A place is an entry where it has mark 0.
fn at_entries<N: Network>(net: &N, part: &[N::Set]) -> Verdict
    requires { PerPlace (N.meaning net.now) part.now }
    ensures { Told (N.meaning net.now) (Is (covers N.Set.ConditionSet.holds part.now)) result }
{
    for (place, held) in part.iter().enumerate() {
        if has_mark(net, place, 0) {
            let failing = held.complement();
            if let Some(setting) = failing.pick() {
                return Verdict::Breaks(place, setting);
            }
        }
    }
    Verdict::Holds
}

// Judges the network against every row of the table, as `judge` does, and answers the rounds with the
// verdict on the last row at the entries.
pub fn judge_entries<N: Network>(
    net: &N,
    table: &[Row],
    main: &mut [N::Set],
    spare: &mut [N::Set],
) -> Result<Judgement, Refusal>
    ensures refusal { result_err result
        ≡ judge_refusal (N.meaning net.now) table.now (length main.old) (length spare.old) }
    ensures judged { IfOk result
        (λ j. Judged N.Set.ConditionSet.holds (N.meaning net.now) table.now main.old main.new j.rounds) }
    ensures told { IfOk result (λ j. Told (N.meaning net.now)
        (Means (N.meaning net.now) (rule_at table.now (length table.now - 1))) j.verdict) }
    ensures main { OnErr result (main.new ≡ main.old) }
    ensures spare { OnErr result (spare.new ≡ spare.old) }
{
    let rounds = judge(net, table, main, spare)?;
    let n = net.places();
    let start = (table.len() - 1) * n;
    let verdict = at_entries(net, &main[start..start + n]);
    Ok(Judgement { rounds, verdict })
}
