// Counts of what was tried and of what differed.
use crate::counts::Counts;
use std::io;

// What is counted, in the order of the summary: what has to be tried, and then what may not come.
#[derive(Clone, Copy)]
pub enum Seen {
    PlainNetworks,
    WordNetworks,
    NoPlaces,
    NoEntries,
    SelfLoops,
    ParallelBindings,
    EmptySets,
    RestingPlaces,
    SometimesResting,
    Tables,
    Rows,
    YesRows,
    MarkRows,
    ConditionRows,
    NotRows,
    AndRows,
    OrRows,
    NextRows,
    UntilRows,
    AlwaysRows,
    MixedRows,
    LongUntilRows,
    LongAlwaysRows,
    LongestRows,
    Positions,
    TruePositions,
    FalsePositions,
    Hops,
    Unreachable,
    Holds,
    Breaks,
    NextRoutes,
    UntilRoutes,
    AlwaysRoutes,
    Reaching,
    Resting,
    Returning,
    ShortRoutes,
    LongRoutes,
    RowFails,
    Texts,
    TextNext,
    TextFuture,
    TextAlways,
    TextUntil,
    LargeTexts,
    TextTrue,
    TextFalse,
    WrongPositions,
    WrongRounds,
    WrongVerdicts,
    WrongHops,
    WrongRest,
    WrongRoutes,
    WrongAnswers,
    WrongSteps,
    WrongTexts,
    WrongReadings,
    Refusals,
}

// How many kinds of things are counted.
const KINDS: usize = Seen::Refusals as usize + 1;

// How many of them have to be tried.
const TRIED: usize = Seen::WrongPositions as usize;

// The name of each, in the same order.
static NAMES: [&str; KINDS] = [
    "networks of plain sets",
    "networks of word sets",
    "networks with no places",
    "networks with places and no entries",
    "networks with self-loops",
    "networks with parallel bindings",
    "networks with empty sets",
    "networks with places without steps",
    "networks with places that rest under some settings only",
    "tables",
    "rows",
    "rows: yes",
    "rows: mark",
    "rows: condition",
    "rows: not",
    "rows: and",
    "rows: or",
    "rows: next",
    "rows: until",
    "rows: always",
    "rows true somewhere and false somewhere",
    "rows: until, of two and more rounds",
    "rows: always, of two and more rounds",
    "rows of five and more rounds",
    "positions",
    "positions where the row is true",
    "positions where the row is false",
    "positions with hops to the second operand of until",
    "positions with none",
    "verdicts that hold",
    "verdicts that break",
    "routes: next",
    "routes: until",
    "routes: always",
    "routes that reach",
    "routes that rest",
    "routes that return",
    "routes of one position",
    "routes of three and more positions",
    "routes refused with 26",
    "texts",
    "texts: AX",
    "texts: AF",
    "texts: AG",
    "texts: A until",
    "texts refused for their rows or bytes",
    "positions where a text is true",
    "positions where a text is false",
    "positions that differ",
    "rounds that differ",
    "verdicts that differ",
    "hops that differ",
    "lists written beyond the table",
    "routes that differ",
    "routes shown or refused that differ",
    "steps written beyond the route",
    "positions of texts that differ",
    "texts read or refused that differ",
    "refusals",
];

#[derive(Clone, Copy)]
pub struct Tally {
    counts: Counts<KINDS>,
}

impl Tally {
    // Nothing is counted yet.
    pub fn new() -> Tally {
        Tally {
            counts: Counts::new(),
        }
    }

    pub fn add(&mut self, what: Seen, more: usize) {
        self.counts.add(what as usize, more);
    }

    // Adds one where it is so.
    pub fn add_if(&mut self, what: Seen, is_so: bool) {
        self.add(what, usize::from(is_so));
    }

    // Prints a line for each count.
    pub fn print(&self, rt: &impl Print) -> io::Result<()> {
        for (number, name) in NAMES.iter().enumerate() {
            let count = self.counts.get(number);
            println!(rt; "{name}: {count}")?;
        }
        Ok(())
    }

    // Whether something that was to be tried was not.
    pub fn untried(&self) -> bool {
        (0..TRIED).any(|number| self.counts.get(number) == 0)
    }

    // Whether anything differed.
    pub fn differs(&self) -> bool {
        (TRIED..KINDS).any(|number| self.counts.get(number) != 0)
    }
}
