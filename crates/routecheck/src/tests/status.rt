// The status that the program exits with.
use crate::tests::refused::plan_of;
use crate::tests::scripts::script_of_length;
use console::command::{BoardRequest, Command, Options, Request};
use console::problem::Source;
use console::run::serve;
use session::script::MOST_SCRIPT_BYTES;
use std::fs;
use std::process::ExitCode;
use std::test::Fail;

// The status for the plan in the file of that name.
fn status_of(rt: &HostRuntime, name: &str) -> Result<ExitCode, Fail> {
    let source = Source::File(name.to_string(rt.alloc())?);
    let request = Request {
        source,
        explain: false,
    };
    Ok(serve(rt, Command::Check(request)))
}

#[test]
fn judged(rt: HostRuntime) -> Result<(), Fail> {
    let plan = plan_of(rt.alloc(), b"m0")?;
    fs::write(&rt, "judged.plan", plan.as_slice())?;
    assert_eq!(rt; status_of(&rt, "judged.plan")?, ExitCode::SUCCESS);
    Ok(())
}

#[test]
fn refused(rt: HostRuntime) -> Result<(), Fail> {
    let plan = plan_of(rt.alloc(), b"m0 $")?;
    fs::write(&rt, "refused.plan", plan.as_slice())?;
    assert_eq!(rt; status_of(&rt, "refused.plan")?, ExitCode::FAILURE);
    Ok(())
}

#[test]
fn missing(rt: HostRuntime) -> Result<(), Fail> {
    assert_eq!(rt; status_of(&rt, "missing.plan")?, ExitCode::FAILURE);
    Ok(())
}

// The status for a script, by its bytes, on a board in front of the plan in the file of that name.
fn status_of_script(rt: &HostRuntime, plan: &str, script: &[u8]) -> Result<ExitCode, Fail> {
    let name = format!(in rt.alloc(); "{plan}.session")?;
    fs::write(rt, &name, script)?;
    let request = BoardRequest {
        plan: Source::File(plan.to_string(rt.alloc())?),
        script: Source::File(name),
        explain: true,
    };
    Ok(serve(rt, Command::Board(request)))
}

// Two own places in front of two of a plan; what is refused is a ticket, and a rule that breaks; what is no script has a fault,
// and no board has 65 own places.
#[test]
fn played(rt: HostRuntime) -> Result<(), Fail> {
    let plan = plan_of(rt.alloc(), b"m0")?;
    fs::write(&rt, "played.plan", plan.as_slice())?;
    for (script, status) in [
        ("open 1 2 0 0\nproposals\n", 0),
        ("open 1 2 0 0\nadmit 1 1\nproposals\n", 1),
        ("open 1 2 1 0\nadopt AF m1\n", 1),
        ("open 1 2 0 0\nadopt m0 $\n", 2),
        ("open 1 0 9\n", 2),
        ("", 2),
    ] {
        let found = status_of_script(&rt, "played.plan", script.as_bytes())?;
        assert_eq!(rt; found, ExitCode::from(status), "{script}");
    }
    let opening = "open 1 65 ".to_string(rt.alloc())?;
    let marks = "0 ".repeat(rt.alloc(), 65)?;
    let script = format!(in rt.alloc(); "{opening}{marks}")?;
    let found = status_of_script(&rt, "played.plan", script.as_bytes())?;
    assert_eq!(rt; found, ExitCode::from(2));
    Ok(())
}

// A script of 1 MiB is played, and one with a byte more is refused, though its front is a script.
#[test]
fn longest(rt: HostRuntime) -> Result<(), Fail> {
    let plan = plan_of(rt.alloc(), b"m0")?;
    fs::write(&rt, "longest.plan", plan.as_slice())?;
    for (length, status) in [(MOST_SCRIPT_BYTES, 0), (MOST_SCRIPT_BYTES + 1, 2)] {
        let script = script_of_length(rt.alloc(), length)?;
        let found = status_of_script(&rt, "longest.plan", &script)?;
        assert_eq!(rt; found, ExitCode::from(status));
    }
    Ok(())
}

// A plan that is missing or refused, and a script that is missing.
#[test]
fn not_played(rt: HostRuntime) -> Result<(), Fail> {
    let plan = plan_of(rt.alloc(), b"m0 $")?;
    fs::write(&rt, "not_played.plan", plan.as_slice())?;
    for name in ["missing.plan", "not_played.plan"] {
        let found = status_of_script(&rt, name, b"open 1 0\n")?;
        assert_eq!(rt; found, ExitCode::from(2), "{name}");
    }
    let plan = plan_of(rt.alloc(), b"m0")?;
    fs::write(&rt, "not_played.plan", plan.as_slice())?;
    let request = BoardRequest {
        plan: Source::File("not_played.plan".to_string(rt.alloc())?),
        script: Source::File("missing.session".to_string(rt.alloc())?),
        explain: false,
    };
    assert_eq!(rt; serve(&rt, Command::Board(request)), ExitCode::from(2));
    Ok(())
}

// Words that are no command.
#[test]
fn wrong_words(rt: HostRuntime) -> Result<(), Fail> {
    for (word, status) in [("board", 2), ("a.plan", 1)] {
        let mut options = Options::default();
        let first = word.to_string(rt.alloc())?;
        assert!(rt; options.add(first).is_ok());
        let second = "--no".to_string(rt.alloc())?;
        assert!(rt; options.add(second).is_err());
        assert_eq!(rt; options.failure(), ExitCode::from(status));
    }
    Ok(())
}
