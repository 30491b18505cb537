// What scripts are answered, on a board in front of trial network P: places 0, an entry, and 1, with mark 1, and a binding
// between them while condition 0 is on. Behind the own places they have higher numbers.
use board::opening::OpeningFault;
use routing::refusal::Refusal;
use routing::site::SiteTable;
use samples::networks::{P_BINDINGS, P_MARKS};
use session::answers::{answer_lines, is_any_refused, refused_opening};
use session::play::play_script;
use session::script::{Script, read_script};
use std::alloc::Global;
use std::process::Abort;
use std::test::Fail;

// Lines of a script, each with its answer behind `=>`. There is none where that is missing.
// With one own place, 0, an entry: places 1 and 2 are those of the network.
const CALLS: &str = "\
open 3 1 1 => ok
proposals => ok 0
# At place 0 orders rest, whether condition 0 is on or off.
adopt EF m1 | !c0 => refused 25 0 0 1 none
propose bind 0 1 0 0 => ok 3 1
proposals => ok 1
revise 3 1 bind 0 2 1 0 => ok 3 1
# There is no rule to judge.
admit 3 1 => ok 0
proposals => ok 0
# Both entries have a step to mark 1 while condition 0 is on.
adopt EF m1 | !c0 => ok 1
adopt AF m1 => refused 25 1 0 0 rests 0,0
adopt AG !m1 => refused 25 1 0 1 reaches 0,1 2,0
# EX m1, and tables that are none: an operand too many, and no row.
adopt-rows 2 1 1 0 6 0 0 => refused 25 1 0 0 none
adopt-rows 1 1 1 1 => refused 10
adopt-rows 0 => refused 10
propose unbind 0 => ok 3 2
adopt yes => refused 20
admit 3 2 => refused 25 0 0 1 none
# The ticket is spent.
withdraw 3 2 => refused 23
propose recondition 0 0 0 => ok 3 3
withdraw 3 3 => ok
propose bind 0 3 0 0 => refused 8
propose bind 1 2 0 0 => refused 12
propose unbind 1 => refused 13
propose bind 0 1 0 64 => refused 15
# A step that leads back.
propose bind 0 0 0 0 => ok 3 4
# In two hops from place 0 too.
admit 3 4 => ok 2
adopt AX !m0 => refused 25 1 0 0 returns:0 0,0
adopt AF m1 => refused 25 1 0 0 returns:0 0,0
adopt-rows 1 0 0 0 => ok 0
admit 3 5 => refused 23
";

// Lists for a row of three places, and lists that are shorter by one; then more than there is.
const ROOMS: &str = "\
open 3 1 1 => ok
adopt yes => ok 0
room 3 6 4
adopt yes => ok 0
propose bind 0 1 0 0 => ok 3 1
room 2 6 4
admit 3 1 => refused 14
room 3 5 4
admit 3 1 => refused 14
room 3 6 3
admit 3 1 => refused 14
room 4294967295 4294967295 4294967295
admit 3 1 => ok 0
";

// Own places 0, an entry, and 1: places 2 and 3 are those of the network. The way from 0 to 3 is there while condition 0 is
// on, and not while it is off only.
const CONDITIONS: &str = "\
open 10 2 1 0 => ok
propose bind 0 3 0 0 => ok 10 1
admit 10 1 => ok 0
adopt EX m1 | !c0 => ok 0
propose recondition 0 1 0 => ok 10 2
admit 10 2 => ok 0
propose recondition 0 0 1 => ok 10 3
admit 10 3 => refused 25 0 0 1 none
propose recondition 0 64 0 => refused 15
";

// Reads a script of these lines, and plays it.
fn played(heap: Global, text: &[u8], explain: bool) -> Result<String, Fail> {
    let script = read_script(heap, text)?;
    let net = SiteTable::open(&P_MARKS, &P_BINDINGS)?;
    let answers = play_script(heap, &net, &script)?;
    Ok(answer_lines(heap, &script, &answers, explain)?)
}

fn check_session(rt: &impl Abort, heap: Global, cases: &str) -> Result<(), Fail> {
    let mut script = String::new(heap);
    let mut wanted = String::new(heap);
    for case in cases.lines() {
        if let Some((line, answer)) = case.split_once(" => ") {
            writeln!(script, "{line}")?;
            writeln!(wanted, "{answer}")?;
        } else {
            writeln!(script, "{case}")?;
        }
    }
    let found = played(heap, script.as_bytes(), false)?;
    assert_eq!(rt; found, wanted);
    Ok(())
}

#[test]
fn calls(rt: HostRuntime) -> Result<(), Fail> {
    check_session(&rt, rt.alloc(), CALLS)
}

#[test]
fn conditions(rt: HostRuntime) -> Result<(), Fail> {
    check_session(&rt, rt.alloc(), CONDITIONS)
}

#[test]
fn rooms(rt: HostRuntime) -> Result<(), Fail> {
    check_session(&rt, rt.alloc(), ROOMS)
}

// Comments, empty lines, carriage returns, spaces, and no newline at the end.
const LAYOUT: &str =
    "# first\r\n\r\n  open  007 1 1# one own place\r\n\n   \nproposals\r\n#\n adopt  yes  # always\nproposals";

#[test]
fn layout(rt: HostRuntime) -> Result<(), Fail> {
    let found = played(rt.alloc(), LAYOUT.as_bytes(), false)?;
    assert_eq!(rt; found.as_str(), "ok\nok 0\nok 0\nok 0\n");
    Ok(())
}

const EXPLAINED: &str = "open 3 1 1
adopt EF m1
adopt AF m1
adopt yes
propose bind 0 0 0 0
admit 3 1
adopt AX !m0
adopt AF m1
adopt AG (!m1 | c0)
propose bind 0 2 0 2
admit 3 2
";

const EXPLANATION: &str = "ok
refused 25 0 0 0 none
  It breaks at the entry 0 with no condition on.
  No single route shows why a rule of this form breaks.
refused 25 0 0 0 rests 0,0
  It breaks at the entry 0 with no condition on.
  This route breaks it:
    0: place 0, no condition on
  and rests there: no step leads on.
ok 0
ok 3 1
ok 0
refused 25 1 0 0 returns:0 0,0
  It breaks at the entry 0 with no condition on.
  This route breaks it:
    0: place 0, no condition on
  and steps back to position 0, a position that the rule forbids.
refused 25 1 0 0 returns:0 0,0
  It breaks at the entry 0 with no condition on.
  This route breaks it:
    0: place 0, no condition on
  and goes round for ever from position 0.
refused 25 1 1 1 reaches 1,1 2,0
  It breaks at the entry 1 with c0 on.
  This route breaks it:
    0: place 1, c0 on
    1: place 2, no condition on
  and reaches a position that the rule forbids.
ok 3 2
ok 0
";

#[test]
fn explained(rt: HostRuntime) -> Result<(), Fail> {
    let found = played(rt.alloc(), EXPLAINED.as_bytes(), true)?;
    assert_eq!(rt; found.as_str(), EXPLANATION);
    Ok(())
}

// Of two adopted rules, and one between them that is turned down, the second breaks: its words are those of a loop, and those of
// a step back would be of the other two.
const SECOND_RULE: &str = "open 3 2 1 0
propose bind 0 3 0 0
admit 3 1
adopt AX !m0
adopt AX m0
adopt AF (m1 | !c0)
propose bind 1 1 0 0
admit 3 2
propose bind 0 1 0 0
admit 3 3
";

const SECOND_EXPLANATION: &str = "ok
ok 3 1
ok 0
ok 0
refused 25 1 0 0 reaches 0,0 3,0
  It breaks at the entry 0 with no condition on.
  This route breaks it:
    0: place 0, no condition on
    1: place 3, no condition on
  and reaches a position that the rule forbids.
ok 1
ok 3 2
ok 1
ok 3 3
refused 25 1 0 1 returns:1 0,1 1,1
  It breaks at the entry 0 with c0 on.
  This route breaks it:
    0: place 0, c0 on
    1: place 1, c0 on
  and goes round for ever from position 1.
";

#[test]
fn second_rule(rt: HostRuntime) -> Result<(), Fail> {
    let found = played(rt.alloc(), SECOND_RULE.as_bytes(), true)?;
    assert_eq!(rt; found.as_str(), SECOND_EXPLANATION);
    Ok(())
}

// The lists that are lent at first are long enough for 32 rows on 256 places.
#[test]
fn largest(rt: HostRuntime) -> Result<(), Fail> {
    let heap = rt.alloc();
    let marks = vec![in heap; 1u32; 192]?;
    let net = SiteTable::open(&marks, &[])?;
    let own = "1 ".repeat(heap, 64)?;
    let rows = "0 0 0 ".repeat(heap, 32)?;
    let text = format!(in heap; "open 1 64 {own}\nadopt-rows 32 {rows}\n")?;
    let script = read_script(heap, text.as_bytes())?;
    let answers = play_script(heap, &net, &script)?;
    let found = answer_lines(heap, &script, &answers, false)?;
    assert_eq!(rt; found.as_str(), "ok\nok 0\n");
    Ok(())
}

// 65 own places are one too many.
#[test]
fn opening(rt: HostRuntime) -> Result<(), Fail> {
    let heap = rt.alloc();
    let net = SiteTable::open(&P_MARKS, &P_BINDINGS)?;
    for (own, refused) in [(64, false), (65, true)] {
        let script = Script {
            number: 0,
            marks: vec![in heap; 0; own]?,
            calls: Vec::new(heap),
        };
        let answers = play_script(heap, &net, &script);
        let fault = Err(OpeningFault::Refused(Refusal::OverLimit));
        assert_eq!(rt; answers.map(|answers| answers.len()) == fault, refused);
    }
    assert_eq!(rt;
        refused_opening(heap, Refusal::OverLimit)?.as_str(),
        "refused 9\n"
    );
    Ok(())
}

#[test]
fn refusals(rt: HostRuntime) -> Result<(), Fail> {
    let heap = rt.alloc();
    let net = SiteTable::open(&P_MARKS, &P_BINDINGS)?;
    for (text, refused) in [
        ("open 1 1 1\nproposals", false),
        ("open 1 1 1\nwithdraw 1 1", true),
        ("open 1 1 1\nadopt m1", true),
    ] {
        let script = read_script(heap, text.as_bytes())?;
        let answers = play_script(heap, &net, &script)?;
        assert_eq!(rt; is_any_refused(&answers), refused, "{text}");
    }
    Ok(())
}
