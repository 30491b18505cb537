// Rule texts and what they come to, over six conditions.
use conditions::word::Word;
use rule_text::fault::FaultKind;
use rule_text::read::read_rule;
use std::process::Abort;

// The number of rows, or the number of the refusal, the kind of the fault and its byte.
type Answer = Result<usize, (u32, FaultKind, usize)>;

const UNKNOWN: Answer = Err((1, FaultKind::UnknownWord, 0));

const LARGE: Answer = Err((3, FaultKind::OutOfRange, 0));

const UNFIT: Answer = Err((2, FaultKind::CannotFollow, 3));

const WORDS: [(&[u8], Answer); 17] = [
    (b"EXm0", UNKNOWN),
    (b"m01", UNKNOWN),
    (b"m", UNKNOWN),
    (b"c", UNKNOWN),
    (b"Yes", UNKNOWN),
    (b"m0Um1", UNKNOWN),
    (b"m00", UNKNOWN),
    (b"\t", UNKNOWN),
    (b"m0_", Err((1, FaultKind::UnknownWord, 2))),
    (b"m32", LARGE),
    (b"c6", LARGE),
    (b"m4294967296", LARGE),
    (b"m31", Ok(1)),
    (b"c5", Ok(1)),
    (b"yes", Ok(1)),
    (b"m0 ", Ok(1)),
    (b" (m0)", Ok(1)),
];

const FOLLOWS: [(&[u8], Answer); 6] = [
    (b"m0 m1 $", UNFIT),
    (b"(m0", UNFIT),
    (b"m0&", UNFIT),
    (b"", Err((2, FaultKind::CannotFollow, 0))),
    (b"m0 m32", Err((3, FaultKind::OutOfRange, 3))),
    (b"E [ m0 U m1 ]", Ok(3)),
];

// 33 levels of `!`, 32 and a mark, 31 and an until, and a bracket behind 32.
const LEVELS: [(&[u8], Answer); 4] = [
    (
        b"!!!!!!!!!!!!!!!!!!!!!!!!!!!!!!!!!",
        Err((4, FaultKind::TooDeep, 32)),
    ),
    (
        b"!!!!!!!!!!!!!!!!!!!!!!!!!!!!!!!!m0",
        Err((4, FaultKind::TooDeep, 32)),
    ),
    (
        b"!!!!!!!!!!!!!!!!!!!!!!!!!!!!!!!E[m0 U m1]",
        Err((4, FaultKind::TooDeep, 33)),
    ),
    (
        b"!!!!!!!!!!!!!!!!!!!!!!!!!!!!!!!!)",
        Err((2, FaultKind::CannotFollow, 32)),
    ),
];

const ROWS: [(&[u8], Answer); 3] = [
    (b"!!!!!!!!!!!!!!!!!!!!!!!!!!!!!!!m0", Ok(32)),
    (
        b"A[A[A[A[m0 U m1] U m1] U m1] U m1]",
        Err((5, FaultKind::TooManyRows, 34)),
    ),
    (&[b' '; 201], Err((9, FaultKind::TooLong, 200))),
];

fn read(text: &[u8]) -> Answer {
    match read_rule::<Word>(text) {
        Ok(table) => Ok(table.rows().len()),
        Err(fault) => Err((u32::from(fault.number()), fault.kind, fault.byte)),
    }
}

fn check(rt: &impl Abort, cases: &[(&[u8], Answer)]) {
    for (text, answer) in cases {
        assert_eq!(rt; read(text), *answer);
    }
}

#[test]
fn words(rt: HostRuntime) {
    check(&rt, &WORDS);
}

#[test]
fn follows(rt: HostRuntime) {
    check(&rt, &FOLLOWS);
}

#[test]
fn levels(rt: HostRuntime) {
    check(&rt, &LEVELS);
}

#[test]
fn rows(rt: HostRuntime) {
    check(&rt, &ROWS);
}
