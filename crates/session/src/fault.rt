// Why a script is refused, and where.
use rule_text::fault::Fault;
use std::alloc::{AllocError, AllocFailed};

/// What is wrong in a script.
#[derive(Clone, Copy, Debug, PartialEq, Eq)]
pub enum ScriptFaultKind {
    /// The script has over 1 MiB.
    TooLong,
    /// The word is the name of no call.
    NoCall,
    /// The word is the name of no change.
    NoChange,
    /// A byte of a number is no digit.
    NoDigit,
    /// The number does not fit its field, which has so many bits.
    OverField(u32),
    /// A word is missing behind the last one.
    TooFewWords,
    /// The word stands behind the last one that belongs there.
    TooManyWords,
    /// The script opens no board, or a call comes before.
    NotOpened,
    /// The board is opened already.
    SecondOpen,
    /// The text of a rule is refused, which has so many bytes.
    BadRule { fault: Fault, length: usize },
}

/// The first fault of a script: its line and its column, which both count from 1, and columns in bytes.
#[derive(Clone, Copy, Debug, PartialEq, Eq)]
pub struct ScriptFault {
    pub kind: ScriptFaultKind,
    pub line: usize,
    pub column: usize,
}

/// Why a script is not read.
#[derive(Clone, Copy, Debug, PartialEq, Eq)]
pub enum ScriptError {
    /// It has a fault.
    Refused(ScriptFault),
    /// There is no memory for its calls.
    NoMemory,
}

impl From<ScriptFault> for ScriptError {
    fn from(fault: ScriptFault) -> ScriptError {
        ScriptError::Refused(fault)
    }
}

impl From<AllocError> for ScriptError {
    fn from(_error: AllocError) -> ScriptError {
        ScriptError::NoMemory
    }
}

impl<T: Drop> From<AllocFailed<T>> for ScriptError {
    fn from(_failed: AllocFailed<T>) -> ScriptError {
        ScriptError::NoMemory
    }
}
