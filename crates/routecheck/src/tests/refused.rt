// What is said of refused plans.
use console::problem::Source;
use console::refused::RefusedPlan;
use report::file::report;
use std::alloc::{AllocError, Global};
use std::process::Abort;
use std::test::Fail;

// A plan with two places, a binding and a rule: its bytes before the length of the rule's text.
const FRONT: [u8; 44] = [
    1, 0, 2, 0, 24, 0, 0, 0, 2, 0, 1, 0, 32, 0, 0, 0, 3, 0, 1, 0, 44, 0, 0, 0, 1, 0, 0, 0, 2, 0, 0,
    0, 0, 0, 1, 0, 1, 0, 0, 0, 0, 0, 0, 0,
];

// A byte of the plan by its number, another byte in its place, and the sentence.
const FILES: [(usize, u8, &str); 5] = [
    (24, 1, ""),
    (
        3,
        1,
        "a.plan is refused: a count or a text's length is over its limit (refusal 9, at byte 2)",
    ),
    (
        12,
        33,
        "a.plan is refused: a contents entry has another kind or start than it should (refusal 6, at byte 12)",
    ),
    (
        34,
        2,
        "a.plan is refused: a binding end is not a place (refusal 8, at byte 34)",
    ),
    (
        44,
        3,
        "a.plan is refused: the file is cut or too long (refusal 7, at its end, byte 48)",
    ),
];

// The text of the rule, the byte of the fault, and the words before ", in rule 0".
const TEXTS: [(&str, usize, &str); 6] = [
    (
        "m0 $",
        3,
        "a word is unknown, or a byte is a stray one (refusal 1",
    ),
    (
        "AF m1 m0",
        6,
        "a word cannot follow the words before it (refusal 2",
    ),
    ("AF", 2, "the rule is unfinished at its end (refusal 2"),
    (
        "m0 | c6",
        5,
        "the number of a mark or a condition is out of range (refusal 3",
    ),
    (
        "!!!!!!!!!!!!!!!!!!!!!!!!!!!!!!!!m0",
        32,
        "a word stands too deep, at a 33rd level (refusal 4",
    ),
    // 17 marks and 16 times `|`.
    (
        "m0|m0|m0|m0|m0|m0|m0|m0|m0|m0|m0|m0|m0|m0|m0|m0|m0",
        50,
        "the rule has too many rows, over 32 (refusal 5",
    ),
];

// The plan with this text.
pub(super) fn plan_of(heap: Global, text: &[u8]) -> Result<Vec<u8>, AllocError> {
    let length = u16::try_from(text.len()).unwrap_or(u16::MAX).to_le_bytes();
    let parts: [&[u8]; 3] = [&FRONT, &length, text];
    parts.concat(heap)
}

// The sentence of a refused file; empty where it is not refused.
fn said(heap: Global, file: Vec<u8>) -> Result<String, AllocError> {
    let Some(fault) = report(&file).fault() else {
        return Ok(String::new(heap));
    };
    let source = Source::File("a.plan".to_string(heap)?);
    let refused = RefusedPlan {
        source,
        file,
        fault,
    };
    format!(in heap; "{refused}")
}

// The sentence of a plan with this text, which ends with the text above a caret below the byte.
fn text_sentence(heap: Global, text: &str, words: &str, byte: usize) -> Result<String, AllocError> {
    format!(in heap;
        "a.plan is refused: {words}, in rule 0, at byte {byte} of its text)\n  {text}\n  {:byte$}^",
        ""
    )
}

fn check_text(
    rt: &impl Abort,
    heap: Global,
    text: &str,
    byte: usize,
    words: &str,
) -> Result<(), Fail> {
    let plan = plan_of(heap, text.as_bytes())?;
    let found = said(heap, plan)?;
    let wanted = text_sentence(heap, text, words, byte)?;
    assert_eq!(rt; found, wanted);
    Ok(())
}

#[test]
fn texts(rt: HostRuntime) -> Result<(), Fail> {
    for (text, byte, words) in &TEXTS {
        check_text(&rt, rt.alloc(), text, *byte, words)?;
    }
    Ok(())
}

// The sentence of the plan with this byte in another byte's place.
fn changed(heap: Global, at: usize, byte: u8) -> Result<String, AllocError> {
    let mut file = plan_of(heap, b"m0")?;
    if let Some(place) = file.get_mut(at) {
        *place = byte;
    }
    said(heap, file)
}

#[test]
fn files(rt: HostRuntime) -> Result<(), Fail> {
    for (at, byte, wanted) in &FILES {
        let found = changed(rt.alloc(), *at, *byte)?;
        assert_eq!(rt; found.as_str(), *wanted);
    }
    Ok(())
}
