// The calls of a board as values, and what they are answered.
use judging::shown::{Ending, RouteStep};
use paper::change::Change;
use paper::numbers::Numbers;
use paper::room::Room;
use routing::refusal::Refusal;
use tables::row::Row;

/// A call of a board with its arguments. A ticket is named by its two numbers, and the lists that a call is lent by their
/// lengths.
#[derive(Debug, Drop)]
pub enum Call {
    /// `Board::adopt` of a table.
    Adopt(Vec<Row>, Room),
    /// `Board::propose`
    Propose(Change),
    /// `Board::revise`
    Revise(Numbers, Change),
    /// `Board::admit`
    Admit(Numbers, Room),
    /// `Board::withdraw`
    Withdraw(Numbers),
    /// `Board::open_proposals`
    AskOpen,
}

/// A route that is shown of a rule that breaks: its positions, and how it ends.
#[derive(Debug, Drop)]
pub struct ShownRoute {
    pub steps: Vec<RouteStep>,
    pub ending: Ending,
}

/// A rule breaks: the number of the first that does, the least entry at which it fails, the setting picked there, and the
/// route that shows it, if the form of the rule's table has one.
#[derive(Debug, Drop)]
pub struct TurnedDown {
    pub rule: usize,
    pub place: usize,
    pub setting: u32,
    pub route: Option<ShownRoute>,
}

/// What a call is answered.
#[derive(Debug, Drop)]
pub enum Answer {
    /// The call is refused without judging.
    Refused(Refusal),
    /// The rule is adopted: the rounds of its table.
    Adopted(usize),
    /// The proposal is open: its ticket.
    Proposed(Numbers),
    /// The change of the proposal is replaced: its ticket.
    Revised(Numbers),
    /// The change stands: the rounds of all rules.
    Stood(usize),
    /// The rule or the change was judged and turned down (25).
    TurnedDown(TurnedDown),
    /// The change is dropped.
    Withdrawn,
    /// How many proposals are open.
    Open(usize),
}
