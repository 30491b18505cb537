// A run of the program.
use crate::command::{Command, Options, Request};
use crate::help::HELP;
use crate::input::{Extent, Input, read_source};
use crate::output::print;
use crate::play::play;
use crate::problem::{Problem, Task};
use crate::refused::RefusedPlan;
use explanation::explain::explained;
use report::file::report_front;
use std::env;
use std::process::ExitCode;

// Prints the report of a plan file, with what explains it if that is asked for.
fn print_report(
    rt: &HostRuntime,
    file: &[u8],
    report: &[u8],
    explain: bool,
) -> Result<(), Problem> {
    if !explain {
        return print(rt, report);
    }
    let words = explained(rt.alloc(), file, report)?;
    print(rt, words.as_bytes())
}

fn check(rt: &HostRuntime, request: Request) -> Result<(), Problem> {
    let Request { source, explain } = request;
    let Input {
        source,
        front,
        behind,
    } = read_source(rt, source, Extent::Plan)?;
    let Some(report) = report_front(&front, behind) else {
        return Err(Problem::Uncounted(source));
    };
    let Some(fault) = report.fault() else {
        return print_report(rt, &front, report.text(), explain);
    };
    print(rt, report.text())?;
    Err(Problem::Refused(RefusedPlan {
        source,
        file: front,
        fault,
    }))
}

// Takes the words behind the program's name into account.
fn read_words(rt: &HostRuntime, options: &mut Options) -> Result<(), Problem> {
    match env::args(rt) {
        Ok(words) => {
            for word in words.skip(1) {
                options.add(word)?;
            }
            Ok(())
        }
        Err(error) => Err(Problem::Undone(Task::ReadWords, error)),
    }
}

fn fail(rt: &HostRuntime, problem: Problem, status: ExitCode) -> ExitCode {
    let _ = eprintln!(rt; "routecheck: {problem}");
    status
}

// Does what a command asks for, and answers the status to exit with. A failure is told on standard error.
pub fn serve(rt: &HostRuntime, command: Command) -> ExitCode {
    let failure = command.failure();
    let done = match command {
        Command::Help => print(rt, HELP.as_bytes()).map(|()| ExitCode::SUCCESS),
        Command::Check(request) => check(rt, request).map(|()| ExitCode::SUCCESS),
        Command::Board(request) => play(rt, request),
    };
    match done {
        Ok(status) => status,
        Err(problem) => fail(rt, problem, failure),
    }
}

// Does what the command line asks for, as `serve` does.
pub fn run(rt: &HostRuntime) -> ExitCode {
    let mut options = Options::default();
    let read = read_words(rt, &mut options);
    let failure = options.failure();
    match read.and_then(|()| options.command()) {
        Ok(command) => serve(rt, command),
        Err(problem) => fail(rt, problem, failure),
    }
}
