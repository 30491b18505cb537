// Playing a script on a board in front of a plan's network.
use crate::command::BoardRequest;
use crate::input::{Extent, Input, read_source};
use crate::output::print;
use crate::problem::{Problem, Source};
use crate::refused::{RefusedPlan, RefusedScript};
use board::call::Answer;
use board::opening::OpeningFault;
use plan::fault::PlanFault;
use plan::file::PlanFile;
use plan::oversize::oversize_fault;
use session::answers::{answer_lines, is_any_refused, refused_opening};
use session::fault::ScriptError;
use session::play::play_script;
use session::script::{Script, read_script};
use std::process::ExitCode;

/// The status where the plan, the script or the opening of the board is not accepted.
pub const NOT_ACCEPTED: u8 = 2;

/// The status where a call was refused.
const CALL_REFUSED: u8 = 1;

// The plan of a file of which `behind` bytes are not kept. Absent where they cannot be counted.
fn plan_of<'a>(front: &'a [u8], behind: usize) -> Option<Result<PlanFile<'a>, PlanFault>> {
    if behind == 0 {
        return Some(PlanFile::open(front));
    }
    let fault = oversize_fault(front, behind)?;
    Some(Err(fault.into()))
}

// Reads the script in the file of that name.
fn read_calls(rt: &HostRuntime, source: Source) -> Result<Script, Problem> {
    let Input {
        source,
        front,
        behind: _,
    } = read_source(rt, source, Extent::Script)?;
    match read_script(rt.alloc(), &front) {
        Ok(script) => Ok(script),
        Err(ScriptError::NoMemory) => Err(Problem::NoMemory),
        Err(ScriptError::Refused(fault)) => Err(Problem::RefusedScript(RefusedScript {
            source,
            fault,
        })),
    }
}

// Prints what the calls of a script were answered, and answers the status to exit with.
fn print_answers(
    rt: &HostRuntime,
    script: &Script,
    answers: &[Answer],
    explain: bool,
) -> Result<ExitCode, Problem> {
    let lines = answer_lines(rt.alloc(), script, answers, explain)?;
    print(rt, lines.as_bytes())?;
    if is_any_refused(answers) {
        return Ok(ExitCode::from(CALL_REFUSED));
    }
    Ok(ExitCode::SUCCESS)
}

// Plays the script of that name on a board in front of a plan's network.
fn play_on(
    rt: &HostRuntime,
    plan: &PlanFile<'_>,
    script: Source,
    explain: bool,
) -> Result<ExitCode, Problem> {
    let script = read_calls(rt, script)?;
    match play_script(rt.alloc(), plan, &script) {
        Ok(answers) => print_answers(rt, &script, &answers, explain),
        Err(OpeningFault::NoMemory) => Err(Problem::NoMemory),
        Err(OpeningFault::Refused(refusal)) => {
            let line = refused_opening(rt.alloc(), refusal)?;
            print(rt, line.as_bytes())?;
            Ok(ExitCode::from(NOT_ACCEPTED))
        }
    }
}

// Plays a script, and answers the status to exit with.
pub(crate) fn play(rt: &HostRuntime, request: BoardRequest) -> Result<ExitCode, Problem> {
    let BoardRequest {
        plan,
        script,
        explain,
    } = request;
    let Input {
        source,
        front,
        behind,
    } = read_source(rt, plan, Extent::Plan)?;
    let Some(opened) = plan_of(&front, behind) else {
        return Err(Problem::Uncounted(source));
    };
    match opened {
        Ok(plan) => play_on(rt, &plan, script, explain),
        Err(fault) => Err(Problem::Refused(RefusedPlan {
            source,
            file: front,
            fault,
        })),
    }
}
