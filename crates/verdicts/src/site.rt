// Judging lent marks and binding records at their entries.
ghost use Rattle.std.specs.Prelude.{◌≡◌, ◌-◌, length, IfOk, OnErr};
ghost use Rattle.std.specs.Result.{result_err};
ghost use Rattle.routing.specs.Bindings.{net_of};
ghost use Rattle.routing.specs.Refusals.{opening};
ghost use Rattle.routing.specs.Rules.{Means};
ghost use Rattle.tables.specs.Tables.{rule_at};
ghost use Rattle.judging.specs.Judged.{Judged};
ghost use Rattle.verdicts.specs.Verdicts.{Told};
ghost use Rattle.verdicts.specs.Sites.{site_refusal};

use crate::entries::judge_entries;
use crate::verdict::Judgement;
use conditions::set::ConditionSet;
use routing::binding::Binding;
use routing::refusal::Refusal;
use routing::site::SiteTable;
use tables::row::Row;

// Why marks and records are refused, if they are.
pub fn site_refusal<'a, S: ConditionSet>(
    marks: &'a [u32],
    records: &'a [Binding<S>],
) -> Option<Refusal>
    ensures { result ≡ opening marks.now records.now }
{
    SiteTable::open(marks, records).err()
}

// Opens a site table on the lent lists and judges it at its entries.
pub fn judge_site<'a, S: ConditionSet>(
    marks: &'a [u32],
    records: &'a [Binding<S>],
    table: &[Row],
    main: &mut [S],
    spare: &mut [S],
) -> Result<Judgement, Refusal>
    ensures refusal { result_err result
        ≡ site_refusal S.ConditionSet.count S.ConditionSet.holds
        marks.now records.now table.now (length main.old) (length spare.old) }
    ensures judged { IfOk result (λ j. Judged S.ConditionSet.holds
        (net_of S.ConditionSet.count S.ConditionSet.holds marks.now records.now)
        table.now main.old main.new j.rounds) }
    ensures told { IfOk result (λ j. Told
        (net_of S.ConditionSet.count S.ConditionSet.holds marks.now records.now)
        (Means (net_of S.ConditionSet.count S.ConditionSet.holds marks.now records.now)
        (rule_at table.now (length table.now - 1))) j.verdict) }
    ensures main { OnErr result (main.new ≡ main.old) }
    ensures spare { OnErr result (spare.new ≡ spare.old) }
{
    let site = SiteTable::open(marks, records)?;
    judge_entries(&site, table, main, spare)
}
