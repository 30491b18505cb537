// Rehearsals on a network of two places: 0, the entry, and 1, with mark 1.
use conditions::word::Word;
use routing::binding::Binding;
use routing::refusal::Refusal;
use tables::row::{Operation, Row};
use verdicts::rehearse::rehearse;
use verdicts::verdict::Verdict;

const MARKS: [u32; 2] = [1, 2];

// 0 to 1 always, and 0 to 1 while condition 0 is on.
const RECORDS: [Binding<Word>; 2] = [
    Binding {
        from: 0,
        to: 1,
        set: Word(0xFFFF_FFFF_FFFF_FFFF),
    },
    Binding {
        from: 0,
        to: 1,
        set: Word(0xAAAA_AAAA_AAAA_AAAA),
    },
];

// EX m1.
const EX_M1: [Operation; 2] = [Operation::Mark(1), Operation::Next(0)];

// A binding, the length of the spare list, and the verdict with the binding shut.
const CASES: [(usize, usize, Result<Verdict, Refusal>); 4] = [
    (0, 4, Ok(Verdict::Breaks(0, 0))),
    (1, 4, Ok(Verdict::Holds)),
    // There is no binding 2; and three sets are too few for two places, which is tested last.
    (2, 3, Err(Refusal::NoBinding)),
    (1, 3, Err(Refusal::TooShort)),
];

// The verdict with a binding shut, with so many sets to spare.
fn rehearsed(
    records: &mut [Binding<Word>],
    binding: usize,
    spare: usize,
) -> Result<Verdict, Refusal> {
    let table = EX_M1.map(Row::from);
    let mut main = [Word(0); 4];
    let mut spares = [Word(0); 4];
    let spare = spares.get_mut(..spare).unwrap_or(&mut []);
    let judgement = rehearse(&MARKS, records, binding, &table, &mut main, spare)?;
    Ok(judgement.verdict)
}

// The records are the old ones after each.
#[test]
fn shuts_one_binding(rt: HostRuntime) {
    for (binding, spare, verdict) in CASES {
        let mut records = RECORDS;
        assert_eq!(rt; rehearsed(&mut records, binding, spare), verdict);
        assert!(rt; records == RECORDS);
    }
}
