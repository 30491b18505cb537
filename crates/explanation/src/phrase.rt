// How a part of a rule is said: words around parts of its own.
use crate::parts::{always_part, and_parts, negated, operation, says_yes, until_parts};
use tables::row::{Operation, Row};

#[derive(Clone, Copy)]
pub(crate) enum Phrase {
    Yes,
    Mark(u8),
    // The condition is on; it is off.
    On(u8),
    Off(u8),
    Not(u8),
    And(u8, u8),
    Or(u8, u8),
    // Some step leads on; none does.
    SomeStep,
    NoStep,
    // Some step, every step, leads to the part.
    SomeStepTo(u8),
    EveryStepTo(u8),
    // Some route, every route, comes to the part.
    SomeComesTo(u8),
    EveryComesTo(u8),
    // Every position of some route, of every route, has the part.
    SomeHas(u8),
    EveryHas(u8),
    // Some route, every route, has the first part until it comes to the second.
    SomeUntil(u8, u8),
    EveryUntil(u8, u8),
}

impl Phrase {
    // The words in front of its number or first part, or all its words.
    pub(crate) fn front(self) -> &'static str {
        match self {
            Phrase::Yes => "yes",
            Phrase::Mark(_) => "mark ",
            Phrase::On(_) | Phrase::Off(_) => "condition ",
            Phrase::Not(_) => "not ",
            Phrase::And(_, _) | Phrase::Or(_, _) => "",
            Phrase::SomeStep => "some step leads on",
            Phrase::NoStep => "no step leads on",
            Phrase::SomeStepTo(_) => "some step leads to ",
            Phrase::EveryStepTo(_) => "every step leads to ",
            Phrase::SomeComesTo(_) => "some route comes to ",
            Phrase::EveryComesTo(_) => "every route comes to ",
            Phrase::SomeHas(_) => "every position of some route has ",
            Phrase::EveryHas(_) => "every position of every route has ",
            Phrase::SomeUntil(_, _) => "some route has ",
            Phrase::EveryUntil(_, _) => "every route has ",
        }
    }

    // The words behind its number or first part.
    pub(crate) fn behind(self) -> &'static str {
        match self {
            Phrase::On(_) => " on",
            Phrase::Off(_) => " off",
            Phrase::And(_, _) => " and ",
            Phrase::Or(_, _) => " or ",
            Phrase::SomeUntil(_, _) | Phrase::EveryUntil(_, _) => " until it comes to ",
            _ => "",
        }
    }
}

// The phrase of A[p U q], which is "not (E[!q U !p & !q] or EG !q)"; `until` and `always` are the two parts.
fn every_until(rows: &[Row], until: u8, always: u8) -> Option<Phrase> {
    let (before, end) = until_parts(rows, until)?;
    let (without_p, without_q) = and_parts(rows, end)?;
    if before != always_part(rows, always)? || before != without_q {
        return None;
    }
    let p = negated(rows, without_p)?;
    let q = negated(rows, without_q)?;
    if says_yes(rows, p) {
        return Some(Phrase::EveryComesTo(q));
    }
    Some(Phrase::EveryUntil(p, q))
}

// The phrase of a rule about every step or route, which is "not p" for a p of this shape.
fn every(rows: &[Row], p: u8) -> Option<Phrase> {
    match operation(rows, p)? {
        Operation::Next(q) if says_yes(rows, q) => Some(Phrase::NoStep),
        Operation::Next(q) => negated(rows, q).map(Phrase::EveryStepTo),
        Operation::Always(q) => negated(rows, q).map(Phrase::EveryComesTo),
        Operation::Until(before, q) if says_yes(rows, before) => {
            negated(rows, q).map(Phrase::EveryHas)
        }
        Operation::Or(until, always) => every_until(rows, until, always),
        _ => None,
    }
}

// The phrase of "not p".
fn opposite(rows: &[Row], p: u8) -> Phrase {
    if let Some(phrase) = every(rows, p) {
        return phrase;
    }
    match operation(rows, p) {
        Some(Operation::Condition(k)) => Phrase::Off(k),
        _ => Phrase::Not(p),
    }
}

fn some_step(rows: &[Row], p: u8) -> Phrase {
    if says_yes(rows, p) {
        Phrase::SomeStep
    } else {
        Phrase::SomeStepTo(p)
    }
}

fn some_until(rows: &[Row], p: u8, q: u8) -> Phrase {
    if says_yes(rows, p) {
        Phrase::SomeComesTo(q)
    } else {
        Phrase::SomeUntil(p, q)
    }
}

// The phrase of a part; absent where it is no row of its table.
pub(crate) fn phrase_of(rows: &[Row], part: u8) -> Option<Phrase> {
    Some(match operation(rows, part)? {
        Operation::Yes => Phrase::Yes,
        Operation::Mark(k) => Phrase::Mark(k),
        Operation::Condition(k) => Phrase::On(k),
        Operation::Not(p) => opposite(rows, p),
        Operation::And(p, q) => Phrase::And(p, q),
        Operation::Or(p, q) => Phrase::Or(p, q),
        Operation::Next(p) => some_step(rows, p),
        Operation::Until(p, q) => some_until(rows, p, q),
        Operation::Always(p) => Phrase::SomeHas(p),
    })
}
