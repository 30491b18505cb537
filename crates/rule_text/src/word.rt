// The words of rule text.
ghost use Rattle.std.specs.Prelude.{◌≡◌};
ghost use Rattle.rule_text.specs.Descent.{start_of};

use tables::row::Operation;

// The words that stand before their part: `!` and the two-letter words.
#[derive(Clone, Copy, PartialEq, Eq)]
pub enum Prefix {
    Not,
    Ex,
    Ax,
    Ef,
    Af,
    Eg,
    Ag,
}

// The words that begin an until: `E`, of some route, and `A`, of every route.
#[derive(Clone, Copy, PartialEq, Eq)]
pub enum Quantifier {
    Exists,
    Forall,
}

#[derive(Clone, Copy, PartialEq, Eq)]
pub enum Word {
    // `yes`
    Yes,
    // `m` and a number
    Mark(u8),
    // `c` and a number
    Condition(u8),
    Before(Prefix),
    Routes(Quantifier),
    // `U`
    Until,
    // `&`
    And,
    // `|`
    Or,
    // `(`
    Open,
    // `)`
    Close,
    // `[`
    OpenSquare,
    // `]`
    CloseSquare,
}

// How a part begins: with a word that is a row of its own, or with one that opens a level around other parts.
#[derive(Clone, Copy)]
pub(crate) enum Start {
    Atom(Operation),
    Prefix(Prefix),
    Bracket,
    Quantifier(Quantifier),
}

impl Word {
    // How a part begins with the word, if one does.
    pub(crate) fn start(self) -> Option<Start>
        ensures { result ≡ start_of self }
    {
        match self {
            Word::Yes => Some(Start::Atom(Operation::Yes)),
            Word::Mark(k) => Some(Start::Atom(Operation::Mark(k))),
            Word::Condition(k) => Some(Start::Atom(Operation::Condition(k))),
            Word::Before(prefix) => Some(Start::Prefix(prefix)),
            Word::Open => Some(Start::Bracket),
            Word::Routes(quantifier) => Some(Start::Quantifier(quantifier)),
            _ => None,
        }
    }
}
