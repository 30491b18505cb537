// What adopt and admit answer where no rule and no change stands.
ghost use Rattle.std.specs.Prelude.{◌≡◌};
ghost use Rattle.board.specs.Answers.{rejection_number, not_admitted_number};

use crate::ticket::Denied;
use judging::shown::Shown;
use routing::refusal::Refusal;

/// A rule breaks: the number of the first that does, from 0, the least entry at which it fails, the setting picked there, and
/// what the steps list shows of it, if the form of the rule's table has a route to show.
#[derive(Clone, Copy, Debug, PartialEq, Eq)]
pub struct Failure {
    pub rule: usize,
    pub place: usize,
    pub setting: u32,
    pub shown: Option<Shown>,
}

/// The number of the answer that a rule or a change was judged and turned down.
pub const TURNED_DOWN: u32 = 25;

/// Why a rule was not adopted.
#[derive(Clone, Copy, Debug, PartialEq, Eq)]
pub enum Rejection {
    /// The call was refused without judging.
    Refused(Refusal),
    /// Judged and turned down (25).
    TurnedDown(Failure),
}

/// Why a change was not admitted.
pub enum NotAdmitted {
    /// The call was refused without judging, and the ticket is handed back.
    Denied(Denied),
    /// Judged and turned down (25). The change is dropped, and the ticket spent.
    TurnedDown(Failure),
}

impl From<Refusal> for Rejection {
    ghost use Rattle.board.specs.declared.rejection.Rejection.TheVariants.{Refused};

    ghost from_gives = { λ refusal rejection. rejection ≡ Refused refusal };

    fn from(refusal: Refusal) -> Rejection {
        Rejection::Refused(refusal)
    }
}

impl Rejection {
    /// The number of the refusal.
    pub fn number(self) -> u32
        ensures { result ≡ rejection_number self }
    {
        match self {
            Rejection::Refused(refusal) => refusal.number(),
            Rejection::TurnedDown(_) => TURNED_DOWN,
        }
    }
}

impl NotAdmitted {
    /// The number of the refusal.
    pub fn number(&self) -> u32
        ensures { result ≡ not_admitted_number self.now }
    {
        match self {
            NotAdmitted::Denied(denied) => denied.refusal.number(),
            NotAdmitted::TurnedDown(_) => TURNED_DOWN,
        }
    }
}
