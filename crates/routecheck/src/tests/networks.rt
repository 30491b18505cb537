// The verdicts on the trial networks.
use conditions::word::Word;
use routing::binding::Binding;
use routing::empty::Empty;
use routing::refusal::Refusal;
use samples::networks::{
    AF_M1, AG_EF_M1, EF_M1, EF_M1_OR_NOT_C0, L_BINDINGS, L_MARKS, P_BINDINGS, P_MARKS,
};
use std::process::Abort;
use std::test::Fail;
use tables::row::Row;
use verdicts::entries::judge_entries;
use verdicts::site::judge_site;
use verdicts::verdict::{Judgement, Verdict};

fn check_verdict(
    rt: &impl Abort,
    marks: &[u32],
    records: &[Binding<Word>],
    table: &[Row],
    verdict: Verdict,
    rounds: usize,
) -> Result<(), Fail> {
    // Room for 32 rows on three places.
    let mut main = [Word(0); 96];
    let mut spare = [Word(0); 6];
    let judgement = judge_site(marks, records, table, &mut main, &mut spare)?;
    assert_eq!(rt; judgement, Judgement { rounds, verdict });
    Ok(())
}

#[test]
fn trial_network_p(rt: HostRuntime) -> Result<(), Fail> {
    let table = AF_M1.map(Row::from);
    check_verdict(&rt, &P_MARKS, &P_BINDINGS, &table, Verdict::Breaks(0, 0), 1)?;
    let table = EF_M1_OR_NOT_C0.map(Row::from);
    check_verdict(&rt, &P_MARKS, &P_BINDINGS, &table, Verdict::Holds, 1)
}

#[test]
fn trial_network_l(rt: HostRuntime) -> Result<(), Fail> {
    let table = AF_M1.map(Row::from);
    check_verdict(&rt, &L_MARKS, &L_BINDINGS, &table, Verdict::Breaks(0, 0), 1)?;
    let table = AG_EF_M1.map(Row::from);
    check_verdict(&rt, &L_MARKS, &L_BINDINGS, &table, Verdict::Holds, 3)?;
    let table = EF_M1.map(Row::from);
    check_verdict(&rt, &L_MARKS, &L_BINDINGS, &table, Verdict::Holds, 3)
}

// With no places there are no entries, so that each rule holds, at once and with no sets lent.
#[test]
fn no_places(rt: HostRuntime) -> Result<(), Fail> {
    let table = AF_M1.map(Row::from);
    let net: Empty<Word> = Empty::default();
    let judgement = judge_entries(&net, &table, &mut [], &mut [])?;
    let verdict = Verdict::Holds;
    assert_eq!(rt; judgement, Judgement { rounds: 0, verdict });
    Ok(())
}

// A list that is too short is refused, and nothing is written.
#[test]
fn short_list(rt: HostRuntime) {
    let mut main = [Word(7); 11];
    let mut spare = [Word(7); 6];
    let table = AF_M1.map(Row::from);
    let judged = judge_site(&L_MARKS, &L_BINDINGS, &table, &mut main, &mut spare);
    assert_eq!(rt; judged, Err(Refusal::TooShort));
    assert_eq!(rt; Refusal::TooShort.number(), 14);
    assert!(rt; main == [Word(7); 11] && spare == [Word(7); 6]);
}
