// Why a board is not opened.
ghost use Rattle.std.specs.Prelude.{◌≡◌};

use routing::refusal::Refusal;
use std::alloc::AllocError;

/// Why a board is not opened, or calls are not played on one.
#[derive(Clone, Copy, Debug, PartialEq, Eq)]
pub enum OpeningFault {
    /// Over 64 own places, over 256 places in all, or over 3,968 far bindings (9).
    Refused(Refusal),
    /// There is no memory.
    NoMemory,
}

impl From<AllocError> for OpeningFault {
    ghost use Rattle.board.specs.declared.opening.OpeningFault.TheVariants.{NoMemory};

    ghost from_gives = { λ _ fault. fault ≡ NoMemory };

    fn from(_error: AllocError) -> OpeningFault {
        OpeningFault::NoMemory
    }
}

/// An opening that failed hands the far network back.
pub struct NotOpened<F> {
    pub fault: OpeningFault,
    pub far: F,
}
