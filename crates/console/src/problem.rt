// Why a run fails, as it is told on standard error.
use crate::refused::{RefusedPlan, RefusedScript};
use std::alloc::AllocError;
use std::{fmt, io};

// Where a plan or a script is read from.
#[derive(Drop)]
pub enum Source {
    Stdin,
    File(String),
}

// What the program asks of the system.
#[derive(Drop)]
pub enum Task {
    // To hand over the words of the command line, as text.
    ReadWords,
    Open(String),
    Read(Source),
    // To write to standard output.
    Write,
}

#[derive(Drop)]
pub enum Problem {
    // The task is not done, for what the system says.
    Undone(Task, io::Error),
    UnknownOption(String),
    // The command line names this plan after another.
    SecondPlan(String),
    // The command line names this script after another.
    SecondScript(String),
    // The command line names no script to play.
    NoScript,
    // The plan and the script are both to be read from standard input.
    StdinTwice,
    // The input has more bytes than can be counted.
    Uncounted(Source),
    Refused(RefusedPlan),
    RefusedScript(RefusedScript),
    NoMemory,
}

// The plan or the script that a word of the command line names: `-` is standard input.
impl From<String> for Source {
    fn from(word: String) -> Source {
        if word.as_str() == "-" {
            return Source::Stdin;
        }
        Source::File(word)
    }
}

impl Source {
    fn name(&self) -> &str {
        match self {
            Source::Stdin => "standard input",
            Source::File(name) => name,
        }
    }
}

impl fmt::Display for Source {
    fn fmt<W: fmt::Write>(&self, f: &mut fmt::Formatter<W>) -> fmt::Result {
        f.write_str(self.name())
    }
}

impl Task {
    // What it is done to.
    fn name(&self) -> &str {
        match self {
            Task::ReadWords => "the command line",
            Task::Open(name) => name,
            Task::Read(source) => source.name(),
            Task::Write => "standard output",
        }
    }

    fn done(&self) -> &'static str {
        match self {
            Task::ReadWords | Task::Read(_) => "read",
            Task::Open(_) => "opened",
            Task::Write => "written",
        }
    }
}

// Writes what cannot be done, and what the system says of it.
fn write_undone<W: fmt::Write>(
    f: &mut fmt::Formatter<W>,
    task: &Task,
    error: &io::Error,
) -> fmt::Result {
    write!(f, "{} cannot be {}: {error}", task.name(), task.done())
}

impl fmt::Display for Problem {
    fn fmt<W: fmt::Write>(&self, f: &mut fmt::Formatter<W>) -> fmt::Result {
        match self {
            Problem::Undone(task, error) => write_undone(f, task, error),
            Problem::UnknownOption(word) => write!(
                f,
                "there is no option {word}; --help says what there is"
            ),
            Problem::SecondPlan(name) => write!(
                f,
                "{name} is a second plan; one plan is read at a time"
            ),
            Problem::SecondScript(name) => write!(
                f,
                "{name} is a second script; one script is played at a time"
            ),
            Problem::NoScript => f.write_str("a board needs a plan and a script; --help says how"),
            Problem::StdinTwice => f.write_str(
                "the plan and the script cannot both be standard input",
            ),
            Problem::Uncounted(source) => write!(f, "{source} is too long to be counted"),
            Problem::Refused(plan) => fmt::Display::fmt(plan, f),
            Problem::RefusedScript(script) => fmt::Display::fmt(script, f),
            Problem::NoMemory => f.write_str("there is not enough memory"),
        }
    }
}

impl From<AllocError> for Problem {
    fn from(_error: AllocError) -> Problem {
        Problem::NoMemory
    }
}
