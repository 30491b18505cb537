// What is said of scripts that are refused.
use console::problem::Source;
use console::refused::RefusedScript;
use session::fault::ScriptError;
use session::script::{MOST_SCRIPT_BYTES, read_script};
use std::alloc::{AllocError, Global};
use std::process::Abort;
use std::test::Fail;

// A script, and the words on it with its line and column.
type Case = (&'static str, &'static str);

const OPENINGS: [Case; 13] = [
    ("", "no board is opened before, line 1, column 1"),
    ("# a\n\n", "no board is opened before, line 3, column 1"),
    ("  ", "no board is opened before, line 1, column 3"),
    ("admit 1 x", "no board is opened before, line 1, column 1"),
    (
        "\n\r\n room 1 1 1",
        "no board is opened before, line 3, column 2",
    ),
    (
        "open 1 0\n  open 1 0",
        "a board is opened before, line 2, column 3",
    ),
    ("open", "a word is missing, line 1, column 5"),
    ("open 1", "a word is missing, line 1, column 7"),
    ("open 1 2 5 ", "a word is missing, line 1, column 11"),
    ("open 1 1 5 6", "a word is one too many, line 1, column 12"),
    (
        "open -1 0",
        "a byte of a number is no digit, line 1, column 6",
    ),
    (
        "open\t1 0",
        "a line begins with a word that names no call, line 1, column 1",
    ),
    // The first fault is told.
    (
        "open 1 0\nadmit 1\nbogus",
        "a word is missing, line 2, column 8",
    ),
];

// The same, of the line behind an `open`: lines and words with `=>` between them.
const NAMES: &str = "\
adopts m0 => a line begins with a word that names no call, line 2, column 1
 Admit 1 1 => a line begins with a word that names no call, line 2, column 2
propose bound 1 1 => a word names no change, line 2, column 9
revise 1 1 adopt => a word names no change, line 2, column 12
";

const DIGITS: &str = "\
withdraw 1 x2 => a byte of a number is no digit, line 2, column 12
withdraw 1 2x => a byte of a number is no digit, line 2, column 13
withdraw +1 2 => a byte of a number is no digit, line 2, column 10
withdraw 1 2\t => a byte of a number is no digit, line 2, column 13
";

const WIDE: &str = "\
room 4294967296 0 0 => a number has over 32 bits, line 2, column 6
room 0 4294967296 0 => a number has over 32 bits, line 2, column 8
room 0 0 4294967296 => a number has over 32 bits, line 2, column 10
adopt-rows 4294967296 => a number has over 32 bits, line 2, column 12
revise 4294967296 1 unbind 0 => a number has over 32 bits, line 2, column 8
revise 1 4294967296 unbind 0 => a number has over 32 bits, line 2, column 10
admit 4294967296 1 => a number has over 32 bits, line 2, column 7
admit 1 4294967296 => a number has over 32 bits, line 2, column 9
withdraw 4294967296 1 => a number has over 32 bits, line 2, column 10
withdraw 1 4294967296 => a number has over 32 bits, line 2, column 12
admit 18446744073709551617 1 => a number has over 32 bits, line 2, column 7
admit 1 99999999999999999999999 => a number has over 32 bits, line 2, column 9
";

const NARROW: &str = "\
propose bind 65536 0 0 0 => a number has over 16 bits, line 2, column 14
propose bind 0 65536 0 0 => a number has over 16 bits, line 2, column 16
propose bind 0 0 65536 0 => a number has over 16 bits, line 2, column 18
propose bind 0 0 0 65536 => a number has over 16 bits, line 2, column 20
propose unbind 65536 => a number has over 16 bits, line 2, column 16
propose recondition 65536 0 0 => a number has over 16 bits, line 2, column 21
propose recondition 0 65536 0 => a number has over 16 bits, line 2, column 23
propose recondition 0 0 65536 => a number has over 16 bits, line 2, column 25
revise 1 1 unbind 65536 => a number has over 16 bits, line 2, column 19
adopt-rows 1 256 0 0 => a number has over 8 bits, line 2, column 14
adopt-rows 1 0 256 0 => a number has over 8 bits, line 2, column 16
adopt-rows 1 0 0 256 => a number has over 8 bits, line 2, column 18
";

const FEW: &str = "\
room 1 2 => a word is missing, line 2, column 9
propose => a word is missing, line 2, column 8
propose bind 0 1 0  # and so on => a word is missing, line 2, column 19
propose unbind => a word is missing, line 2, column 15
propose recondition 0 0 => a word is missing, line 2, column 24
revise 1 => a word is missing, line 2, column 9
revise 1 1 => a word is missing, line 2, column 11
admit => a word is missing, line 2, column 6
admit 1\r => a word is missing, line 2, column 8
withdraw 1  => a word is missing, line 2, column 11
adopt-rows => a word is missing, line 2, column 11
adopt-rows 1 0 0 => a word is missing, line 2, column 17
adopt-rows 2 0 0 0 => a word is missing, line 2, column 19
";

const MANY: &str = "\
room 1 2 3 4 => a word is one too many, line 2, column 12
propose unbind 0 0 => a word is one too many, line 2, column 18
propose bind 0 1 0 0 x => a word is one too many, line 2, column 22
propose recondition 0 0 0 0 => a word is one too many, line 2, column 27
revise 1 1 unbind 0 0 => a word is one too many, line 2, column 21
admit 1 1  1 => a word is one too many, line 2, column 12
withdraw 1 1 1 => a word is one too many, line 2, column 14
proposals 1 => a word is one too many, line 2, column 11
adopt-rows 1 0 0 0 0 => a word is one too many, line 2, column 20
";

const RULES: &str = "\
adopt m0 $ => a word is unknown, or a byte is a stray one (refusal 1, at byte 3 of the rule), line 2, column 10
adopt m0 m1 => a word cannot follow the words before it (refusal 2, at byte 3 of the rule), line 2, column 10
adopt => the rule is unfinished at its end (refusal 2, at byte 0 of the rule), line 2, column 6
  adopt  AF # every => the rule is unfinished at its end (refusal 2, at byte 2 of the rule), line 2, column 12
adopt m0 | c6 => the number of a mark or a condition is out of range (refusal 3, at byte 5 of the rule), line 2, column 12
adopt !!!!!!!!!!!!!!!!!!!!!!!!!!!!!!!!m0 => a word stands too deep, at a 33rd level (refusal 4, at byte 32 of the rule), line 2, column 39
adopt m0|m0|m0|m0|m0|m0|m0|m0|m0|m0|m0|m0|m0|m0|m0|m0|m0 => the rule has too many rows, over 32 (refusal 5, at byte 50 of the rule), line 2, column 57
";

// The sentence of a refused script; empty where it is read, or where there is no memory.
fn said(heap: Global, text: &[u8]) -> Result<String, AllocError> {
    let Err(ScriptError::Refused(fault)) = read_script(heap, text) else {
        return Ok(String::new(heap));
    };
    let source = Source::File("a.session".to_string(heap)?);
    format!(in heap; "{}", RefusedScript { source, fault })
}

fn check_script(rt: &impl Abort, heap: Global, text: &[u8], words: &str) -> Result<(), Fail> {
    let found = said(heap, text)?;
    let wanted = format!(in heap; "a.session is refused: {words}")?;
    assert_eq!(rt; found, wanted);
    Ok(())
}

// Checks lines behind an `open`.
fn check_lines(rt: &impl Abort, heap: Global, cases: &str) -> Result<(), Fail> {
    for case in cases.lines() {
        let (line, words) = case.split_once(" => ").ok_or("a case has no words")?;
        let script = format!(in heap; "open 1 0\r\n{line}\nproposals")?;
        check_script(rt, heap, script.as_bytes(), words)?;
    }
    Ok(())
}

#[test]
fn openings(rt: HostRuntime) -> Result<(), Fail> {
    for (script, words) in &OPENINGS {
        check_script(&rt, rt.alloc(), script.as_bytes(), words)?;
    }
    Ok(())
}

#[test]
fn names(rt: HostRuntime) -> Result<(), Fail> {
    check_lines(&rt, rt.alloc(), NAMES)
}

#[test]
fn numbers(rt: HostRuntime) -> Result<(), Fail> {
    check_lines(&rt, rt.alloc(), DIGITS)?;
    check_lines(&rt, rt.alloc(), WIDE)?;
    check_lines(&rt, rt.alloc(), NARROW)
}

#[test]
fn wide_openings(rt: HostRuntime) -> Result<(), Fail> {
    let heap = rt.alloc();
    let words = "a number has over 32 bits, line 1, column 6";
    check_script(&rt, heap, b"open 4294967296 0", words)?;
    let words = "a number has over 32 bits, line 1, column 8";
    check_script(&rt, heap, b"open 1 4294967296", words)?;
    let words = "a number has over 32 bits, line 1, column 10";
    check_script(&rt, heap, b"open 1 1 4294967296", words)
}

#[test]
fn counts_of_words(rt: HostRuntime) -> Result<(), Fail> {
    check_lines(&rt, rt.alloc(), FEW)?;
    check_lines(&rt, rt.alloc(), MANY)
}

#[test]
fn rules(rt: HostRuntime) -> Result<(), Fail> {
    check_lines(&rt, rt.alloc(), RULES)
}

// A rule of 201 bytes.
#[test]
fn long_rule(rt: HostRuntime) -> Result<(), Fail> {
    let parts: [&[u8]; 2] = [b"open 1 0\nadopt ", &[b'!'; 201]];
    let words =
        "the text is too long, over 200 bytes (refusal 9, at byte 200 of the rule), line 2, column 207";
    check_script(&rt, rt.alloc(), &parts.concat(rt.alloc())?, words)
}

// An `open`, and a comment that makes the script as long as that.
pub(crate) fn script_of_length(heap: Global, length: usize) -> Result<Vec<u8>, AllocError> {
    let mut script = Vec::from_slice(heap, b"open 1 0\n")?;
    script.resize(length, b'#')?;
    Ok(script)
}

// The longest script is read. The byte behind it stands in line 2, whose first byte is number 9 of the script, from 0.
#[test]
fn long_script(rt: HostRuntime) -> Result<(), Fail> {
    let heap = rt.alloc();
    let longest = script_of_length(heap, MOST_SCRIPT_BYTES)?;
    assert!(rt; read_script(heap, &longest).is_ok());
    let longer = script_of_length(heap, MOST_SCRIPT_BYTES + 1)?;
    let words = "it has over 1048576 bytes, line 2, column 1048568";
    check_script(&rt, heap, &longer, words)
}
