// Judging a network as if one binding forwarded under no setting.
ghost use Rattle.std.specs.Prelude.{◌≡◌, ◌-◌, length, IfOk, OnErr};
ghost use Rattle.std.specs.Result.{result_err};
ghost use Rattle.routing.specs.Rules.{Means};
ghost use Rattle.tables.specs.Tables.{rule_at};
ghost use Rattle.judging.specs.Judged.{RoundsBefore};
ghost use Rattle.verdicts.specs.Verdicts.{Told};
ghost use Rattle.verdicts.specs.Rehearsals.{shut_net, rehearse_refusal};

use crate::shut::{Shut, empty_set};
use crate::site::judge_site;
use crate::verdict::Judgement;
use conditions::set::ConditionSet;
use conditions::word::Word;
use routing::binding::Binding;
use routing::refusal::Refusal;
use routing::site::SiteTable;
use tables::row::Row;
use tables::table::is_accepted;

// Tests a rehearsal with lists of so many sets.
fn check(
    marks: &[u32],
    records: &[Binding<Word>],
    number: usize,
    table: &[Row],
    main: usize,
    spare: usize,
) -> Result<(), Refusal>
    ensures { result_err result ≡ rehearse_refusal marks.now records.now number table.now main spare }
{
    let _ = SiteTable::open(marks, records)?;
    if !is_accepted(table, Word::conditions()) {
        return Err(Refusal::BadTable);
    }
    if number >= records.len() {
        return Err(Refusal::NoBinding);
    }
    if main < table.len() * marks.len() || spare < 2 * marks.len() {
        return Err(Refusal::TooShort);
    }
    Ok(())
}

// Answers the rounds and the verdict at the entries, as if binding `number` forwarded under no setting.
// The records are then as they were.
pub fn rehearse(
    marks: &[u32],
    records: &mut [Binding<Word>],
    number: usize,
    table: &[Row],
    main: &mut [Word],
    spare: &mut [Word],
) -> Result<Judgement, Refusal>
    ensures back { records.new ≡ records.old }
    ensures refusal { result_err result
        ≡ rehearse_refusal marks.now records.old number table.now (length main.old) (length spare.old) }
    ensures told { IfOk result (λ j. Told (shut_net marks.now records.old number)
        (Means (shut_net marks.now records.old number) (rule_at table.now (length table.now - 1))) j.verdict) }
    ensures counted { IfOk result
        (λ j. RoundsBefore (shut_net marks.now records.old number) table.now (length table.now) j.rounds) }
    ensures main { OnErr result (main.new ≡ main.old) }
    ensures spare { OnErr result (spare.new ≡ spare.old) }
{
    check(marks, records, number, table, main.len(), spare.len())?;
    let old = empty_set(records, number);
    let guard = Shut {
        records,
        number,
        old,
    };
    judge_site(marks, guard.view(), table, main, spare)
}
