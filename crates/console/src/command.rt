// What the command line asks for.
use crate::play::NOT_ACCEPTED;
use crate::problem::{Problem, Source};
use std::process::ExitCode;

#[derive(Drop)]
pub struct Request {
    pub source: Source,
    pub explain: bool,
}

/// To play a script on a board in front of a plan's network.
#[derive(Drop)]
pub struct BoardRequest {
    pub plan: Source,
    pub script: Source,
    pub explain: bool,
}

#[derive(Drop)]
pub enum Command {
    Help,
    Check(Request),
    Board(BoardRequest),
}

// What the words so far ask for.
#[derive(Default, Drop)]
pub struct Options {
    // Whether there is a word, and whether the first is `board`.
    begun: bool,
    board: bool,
    help: bool,
    explain: bool,
    source: Option<Source>,
    script: Option<Source>,
}

// The status of a failure, of a board or of a plan alone.
fn failure(board: bool) -> ExitCode {
    if board {
        return ExitCode::from(NOT_ACCEPTED);
    }
    ExitCode::FAILURE
}

impl Command {
    /// The status where the command is not done.
    pub fn failure(&self) -> ExitCode {
        failure(matches!(self, Command::Board(_)))
    }
}

// The board that the words ask for.
fn board_request(
    plan: Option<Source>,
    script: Option<Source>,
    explain: bool,
) -> Result<Command, Problem> {
    match (plan, script) {
        (Some(Source::Stdin), Some(Source::Stdin)) => Err(Problem::StdinTwice),
        (Some(plan), Some(script)) => Ok(Command::Board(BoardRequest {
            plan,
            script,
            explain,
        })),
        _ => Err(Problem::NoScript),
    }
}

impl Options {
    // Takes the plan that a word names, or the script.
    fn add_name(&mut self, word: String) -> Result<(), Problem> {
        if self.source.is_none() {
            self.source = Some(Source::from(word));
            return Ok(());
        }
        if !self.board {
            return Err(Problem::SecondPlan(word));
        }
        if self.script.is_some() {
            return Err(Problem::SecondScript(word));
        }
        self.script = Some(Source::from(word));
        Ok(())
    }

    // Takes the next word into account.
    pub fn add(&mut self, word: String) -> Result<(), Problem> {
        let begins = !self.begun;
        self.begun = true;
        match word.as_str() {
            "board" if begins => self.board = true,
            "--help" => self.help = true,
            "--explain" => self.explain = true,
            other if other.starts_with('-') && other != "-" => {
                return Err(Problem::UnknownOption(word));
            }
            _ => return self.add_name(word),
        }
        Ok(())
    }

    /// The status where the words are no command.
    pub fn failure(&self) -> ExitCode {
        failure(self.board)
    }

    // The command that the words give.
    pub fn command(self) -> Result<Command, Problem> {
        let Options {
            begun: _,
            board,
            help,
            explain,
            source,
            script,
        } = self;
        if help {
            return Ok(Command::Help);
        }
        if board {
            return board_request(source, script, explain);
        }
        Ok(Command::Check(Request {
            source: source.unwrap_or(Source::Stdin),
            explain,
        }))
    }
}
