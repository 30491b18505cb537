// Why a call is refused. Every refusal has a number, by which documents and programs name it.
ghost use Rattle.std.specs.Prelude.{◌≡◌};
ghost use Rattle.routing.specs.Refusals.{numbered};

#[derive(Clone, Copy, Debug, PartialEq, Eq)]
pub enum Refusal {
    // A binding end is not a place.
    NoPlace = 8,
    // Over a count limit.
    OverLimit = 9,
    // A rule table that is not accepted.
    BadTable = 10,
    // The asked row, its operation, the place or the setting does not fit.
    BadQuery = 11,
    // No end of a binding to be added is an own place.
    NoOwnEnd = 12,
    // No binding has the number.
    NoBinding = 13,
    // A work space or a list is too short.
    TooShort = 14,
    // A change names a condition that is none.
    NoCondition = 15,
    // A proposal is open.
    ProposalOpen = 20,
    // As many own bindings stand as there may be.
    BindingsFull = 21,
    // As many rules are adopted as there may be.
    RulesFull = 22,
    // The ticket is not that of an open proposal.
    WrongTicket = 23,
    // The last serial was handed out.
    NoSerial = 24,
    // The asked row does not hold at the asked position; or the rule holds that is asked why it breaks.
    RowFails = 26,
}

impl Refusal {
    pub fn number(self) -> u32
        ensures { result ≡ numbered self }
    {
        self as u32
    }
}
