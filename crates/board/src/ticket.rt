// Tickets.
ghost use Rattle.std.specs.Prelude.{◌≡◌};

use paper::numbers::Numbers;
use routing::refusal::Refusal;

/// The right to decide the open proposal of a board.
///
/// A ticket cannot be let go: `Board::admit` and `Board::withdraw` spend it. Only `Board::propose` makes one.
pub struct Ticket {
    pub(crate) numbers: Numbers,
}

/// A refusal that hands the ticket back, as it was.
pub struct Denied {
    pub refusal: Refusal,
    pub ticket: Ticket,
}

impl Ticket {
    /// The two numbers of the ticket.
    pub fn numbers(&self) -> Numbers
        ensures { result ≡ self.now.numbers }
    {
        self.numbers
    }

    // The end of a ticket.
    pub(crate) fn spend(self) {
        let Ticket { numbers: _ } = self;
    }
}
