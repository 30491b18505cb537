// Why a text is refused, and at which of its bytes.
ghost use Rattle.std.specs.Prelude.{◌≡◌};
ghost use Rattle.rule_text.specs.Faults.{fault_number};

#[derive(Clone, Copy, Debug, PartialEq, Eq)]
pub enum FaultKind {
    // No word of the language, or a stray byte.
    UnknownWord = 1,
    // The word cannot follow the words before it; at the end of the text, the rule is unfinished.
    CannotFollow = 2,
    // A mark above 31, or a condition that the condition set does not have.
    OutOfRange = 3,
    // The word would stand at a 33rd level.
    TooDeep = 4,
    // The table of the rule would have more than 32 rows.
    TooManyRows = 5,
    // The text has more than 200 bytes.
    TooLong = 9,
}

#[derive(Clone, Copy, Debug, PartialEq, Eq)]
pub struct Fault {
    pub kind: FaultKind,
    pub byte: usize,
}

impl Fault {
    // The number of the refusal.
    pub fn number(&self) -> u8
        ensures { result ≡ fault_number self.now.kind }
    {
        self.kind as u8
    }
}
