// The text of --help.
use conditions::set::ConditionSet;
use conditions::word::Word;
use console::help::HELP;
use plan::file::rules::MOST_RULES;
use plan::oversize::LONGEST;
use routing::network::{MARKS, MOST_BINDINGS, MOST_PLACES};
use rule_text::read::MOST_BYTES;
use session::script::MOST_SCRIPT_BYTES;
use std::alloc::{AllocError, Global};
use std::test::Fail;

// Words of the text before a limit, the limit of the libraries, and the words behind it.
const LIMITS: [(&str, usize, &str); 7] = [
    ("Limits: ", MOST_PLACES, " places, "),
    (" places, ", MOST_BINDINGS, " bindings, "),
    (" bindings, ", MOST_RULES, " rules of at most "),
    (
        " rules of at most ",
        MOST_BYTES,
        " bytes, marks m0 (for\nentries) to m",
    ),
    ("entries) to m", MARKS as usize - 1, ", conditions c0 to "),
    (" a file of at most ", LONGEST, " bytes.\n"),
    (
        "\nof at most ",
        MOST_SCRIPT_BYTES,
        " bytes with a call a line",
    ),
];

// It fits on two screens of 24 lines of 80 columns, of which the second is about boards.
#[test]
fn screens(rt: HostRuntime) {
    assert!(rt; HELP.lines().count() <= 48);
    assert!(rt; HELP.lines().all(|line| line.len() <= 80));
    let second = HELP.lines().nth(24);
    assert_eq!(rt;
        second,
        Some("Usage: routecheck board [--explain] PLAN SCRIPT")
    );
}

// How each line of a script begins, and each change.
const CALLS: [&str; 12] = [
    "\n  open NUMBER OWN MARKS.. ",
    "\n  room MAIN SPARE STEPS ",
    "\n  adopt RULE ",
    "\n  adopt-rows ROWS (OP A B).. ",
    "\n  propose CHANGE ",
    "\n  revise NUMBER SERIAL CHANGE ",
    "\n  admit NUMBER SERIAL ",
    "\n  withdraw NUMBER SERIAL ",
    "\n  proposals ",
    "bind FROM TO ON OFF",
    "unbind N",
    "recondition N ON OFF",
];

#[test]
fn calls(rt: HostRuntime) {
    for call in CALLS {
        assert!(rt; HELP.contains(call), "{call}");
    }
}

// Whether the text has these words around this limit.
fn says(heap: Global, before: &str, limit: usize, behind: &str) -> Result<bool, AllocError> {
    let words = format!(in heap; "{before}{limit}{behind}")?;
    Ok(HELP.contains(words.as_str()))
}

#[test]
fn limits(rt: HostRuntime) -> Result<(), Fail> {
    for (before, limit, behind) in &LIMITS {
        assert!(rt; says(rt.alloc(), before, *limit, behind)?);
    }
    let last = Word::conditions() as usize - 1;
    assert!(rt; says(rt.alloc(), " conditions c0 to c", last, "; a file")?);
    Ok(())
}
