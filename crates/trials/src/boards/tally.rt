// Counts of what was tried on boards, and of what differed.
use crate::boards::refused::Why;
use crate::counts::Counts;
use board::call::Call;
use std::io;

// What is counted, in the order of the summary: what has to be tried, and then what may not come.
#[derive(Clone, Copy)]
pub enum Seen {
    PlainBoards,
    WordBoards,
    OverNothing,
    OverSites,
    OverBoards,
    NoOwnPlaces,
    ManyOwnPlaces,
    Opened,
    NotOpened,
    Calls,
    Adopted,
    Proposed,
    Revised,
    Stood,
    Withdrawn,
    OpenAsked,
    RulesDown,
    BindsDown,
    UnbindsDown,
    ReconditionsDown,
    LaterRules,
    PlainDown,
    WordDown,
    OverBoardsDown,
    OwnEntries,
    FarEntries,
    NextBroken,
    AlwaysBroken,
    FutureBroken,
    UntilEnded,
    UntilWaiting,
    OtherBroken,
    Reaching,
    Resting,
    Returning,
    WrongAnswers,
    WrongRoutes,
    WrongNetworks,
    WrongOpen,
    WrongOpenings,
    Faults,
}

// How many kinds of things are counted.
const KINDS: usize = Seen::Faults as usize + 1;

// How many of them have to be tried.
const TRIED: usize = Seen::WrongAnswers as usize;

// The name of each, in the same order.
static NAMES: [&str; KINDS] = [
    "boards of plain sets",
    "boards of word sets",
    "boards over the network with no places",
    "boards over site tables",
    "boards over boards",
    "boards with no own places",
    "boards with over eight own places",
    "openings at a limit",
    "openings refused with 9",
    "calls",
    "rules adopted",
    "proposals",
    "proposals revised",
    "changes that stand",
    "proposals withdrawn",
    "questions how many are open",
    "rules turned down",
    "changes turned down: bind",
    "changes turned down: unbind",
    "changes turned down: recondition",
    "changes turned down by a later rule",
    "turned down, plain sets",
    "turned down, word sets",
    "turned down, boards over boards",
    "turned down, own entries",
    "turned down, far entries",
    "turned down: AX",
    "turned down: AG",
    "turned down: AF",
    "turned down: A until, ended too early",
    "turned down: A until, never ended",
    "turned down: no route shown",
    "turned down: routes that reach",
    "turned down: routes that rest",
    "turned down: routes that return",
    "answers that differ",
    "shown routes that differ",
    "boards that differ",
    "open proposals that differ",
    "openings that differ",
    "faults",
];

#[derive(Clone, Copy)]
enum Kind {
    Adopt,
    Propose,
    Revise,
    Admit,
    Withdraw,
    AskOpen,
}

fn kind_of(call: &Call) -> Kind {
    match call {
        Call::Adopt(_, _) => Kind::Adopt,
        Call::Propose(_) => Kind::Propose,
        Call::Revise(_, _) => Kind::Revise,
        Call::Admit(_, _) => Kind::Admit,
        Call::Withdraw(_) => Kind::Withdraw,
        Call::AskOpen => Kind::AskOpen,
    }
}

// A kind of call refused for a reason, which has to come.
struct Line(Kind, Why, &'static str);

const LINES: usize = 29;

static REFUSALS: [Line; LINES] = [
    Line(Kind::Adopt, Why::BadTable, "adopt refused with 10"),
    Line(
        Kind::Adopt,
        Why::ShortMain,
        "adopt refused with 14, main list",
    ),
    Line(Kind::Adopt, Why::ShortSpare, "adopt refused with 14, spare"),
    Line(Kind::Adopt, Why::ShortSteps, "adopt refused with 14, steps"),
    Line(Kind::Adopt, Why::ProposalOpen, "adopt refused with 20"),
    Line(Kind::Adopt, Why::RulesFull, "adopt refused with 22"),
    Line(Kind::Propose, Why::NoPlace, "propose refused with 8"),
    Line(Kind::Propose, Why::NoOwnEnd, "propose refused with 12"),
    Line(Kind::Propose, Why::NoBinding, "propose refused with 13"),
    Line(Kind::Propose, Why::NoCondition, "propose refused with 15"),
    Line(Kind::Propose, Why::ProposalOpen, "propose refused with 20"),
    Line(Kind::Propose, Why::BindingsFull, "propose refused with 21"),
    Line(Kind::Revise, Why::NoPlace, "revise refused with 8"),
    Line(Kind::Revise, Why::NoOwnEnd, "revise refused with 12"),
    Line(Kind::Revise, Why::NoBinding, "revise refused with 13"),
    Line(Kind::Revise, Why::NoCondition, "revise refused with 15"),
    Line(Kind::Revise, Why::BindingsFull, "revise refused with 21"),
    Line(
        Kind::Revise,
        Why::NoneOpen,
        "revise refused with 23, none open",
    ),
    Line(
        Kind::Revise,
        Why::OtherBoard,
        "revise refused with 23, other board",
    ),
    Line(
        Kind::Revise,
        Why::OtherSerial,
        "revise refused with 23, other serial",
    ),
    Line(
        Kind::Admit,
        Why::ShortMain,
        "admit refused with 14, main list",
    ),
    Line(Kind::Admit, Why::ShortSpare, "admit refused with 14, spare"),
    Line(Kind::Admit, Why::ShortSteps, "admit refused with 14, steps"),
    Line(
        Kind::Admit,
        Why::NoneOpen,
        "admit refused with 23, none open",
    ),
    Line(
        Kind::Admit,
        Why::OtherBoard,
        "admit refused with 23, other board",
    ),
    Line(
        Kind::Admit,
        Why::OtherSerial,
        "admit refused with 23, other serial",
    ),
    Line(
        Kind::Withdraw,
        Why::NoneOpen,
        "withdraw refused with 23, none open",
    ),
    Line(
        Kind::Withdraw,
        Why::OtherBoard,
        "withdraw refused with 23, other board",
    ),
    Line(
        Kind::Withdraw,
        Why::OtherSerial,
        "withdraw refused with 23, other serial",
    ),
];

// The number of the count of a refusal.
fn number_of(kind: Kind, why: Why) -> usize {
    (kind as usize)
        .saturating_mul(16)
        .saturating_add(why as usize)
}

#[derive(Clone, Copy)]
pub struct BoardTally {
    counts: Counts<KINDS>,
    refused: Counts<96>,
}

impl BoardTally {
    // Nothing is counted yet.
    pub fn new() -> BoardTally {
        BoardTally {
            counts: Counts::new(),
            refused: Counts::new(),
        }
    }

    pub fn add(&mut self, what: Seen) {
        self.counts.add(what as usize, 1);
    }

    // Adds one where it is so.
    pub fn add_if(&mut self, what: Seen, is_so: bool) {
        self.counts.add(what as usize, usize::from(is_so));
    }

    // Counts a call that is refused.
    pub fn add_refused(&mut self, call: &Call, why: Why) {
        self.refused.add(number_of(kind_of(call), why), 1);
    }

    fn refused(&self, line: &Line) -> usize {
        let Line(kind, why, _) = line;
        self.refused.get(number_of(*kind, *why))
    }

    // Prints a line for each count from one number to another.
    fn print_counts(&self, rt: &impl Print, from: usize, to: usize) -> io::Result<()> {
        for (number, name) in NAMES.iter().enumerate() {
            if number >= from && number < to {
                let count = self.counts.get(number);
                println!(rt; "{name}: {count}")?;
            }
        }
        Ok(())
    }

    // Prints a line for each refusal that has to come.
    fn print_refused(&self, rt: &impl Print) -> io::Result<()> {
        for line in &REFUSALS {
            let Line(_, _, name) = line;
            let count = self.refused(line);
            println!(rt; "{name}: {count}")?;
        }
        Ok(())
    }

    // Prints a line for each count.
    pub fn print(&self, rt: &impl Print) -> io::Result<()> {
        self.print_counts(rt, 0, TRIED)?;
        self.print_refused(rt)?;
        self.print_counts(rt, TRIED, KINDS)
    }

    // Whether something that was to be tried was not.
    pub fn untried(&self) -> bool {
        (0..TRIED).any(|number| self.counts.get(number) == 0)
            || REFUSALS.iter().any(|line| self.refused(line) == 0)
    }

    // Whether anything differed.
    pub fn differs(&self) -> bool {
        (TRIED..KINDS).any(|number| self.counts.get(number) != 0)
    }
}
