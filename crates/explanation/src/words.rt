// A rule in words.
use crate::parts::whole;
use crate::phrase::{Phrase, phrase_of};
use std::fmt;
use tables::row::Row;

// Whether a part stands in brackets: all but the shortest do, and those that go on with the same "and" or "or".
fn is_bracketed(rows: &[Row], part: u8, around: u8) -> bool {
    match phrase_of(rows, part) {
        Some(Phrase::Yes | Phrase::Mark(_) | Phrase::On(_) | Phrase::Off(_)) => false,
        Some(Phrase::And(_, _)) => !matches!(phrase_of(rows, around), Some(Phrase::And(_, _))),
        Some(Phrase::Or(_, _)) => !matches!(phrase_of(rows, around), Some(Phrase::Or(_, _))),
        _ => true,
    }
}

// Writes the number of a mark or condition with the words of its phrase.
fn write_number<W: fmt::Write>(f: &mut fmt::Formatter<W>, said: Phrase, k: u8) -> fmt::Result {
    f.write_str(said.front())?;
    write!(f, "{k}")?;
    f.write_str(said.behind())
}

// Writes a part of another, which stands at an earlier row.
#[cycle(write_inner_write_of_write_two_write_part)]
fn write_inner<W: fmt::Write>(
    f: &mut fmt::Formatter<W>,
    rows: &[Row],
    part: u8,
    around: u8,
) -> fmt::Result {
    if part >= around {
        return Ok(());
    }
    if !is_bracketed(rows, part, around) {
        return write_part(f, rows, part);
    }
    f.write_str("(")?;
    write_part(f, rows, part)?;
    f.write_str(")")
}

// Writes words, and a part of another behind them.
#[cycle(write_inner_write_of_write_two_write_part)]
fn write_of<W: fmt::Write>(
    f: &mut fmt::Formatter<W>,
    rows: &[Row],
    words: &str,
    p: u8,
    around: u8,
) -> fmt::Result {
    f.write_str(words)?;
    write_inner(f, rows, p, around)
}

// Writes two parts of another with the words of their phrase.
#[cycle(write_inner_write_of_write_two_write_part)]
fn write_two<W: fmt::Write>(
    f: &mut fmt::Formatter<W>,
    rows: &[Row],
    said: Phrase,
    p: u8,
    q: u8,
    around: u8,
) -> fmt::Result {
    write_of(f, rows, said.front(), p, around)?;
    write_of(f, rows, said.behind(), q, around)
}

// Writes what a part says.
#[cycle(write_inner_write_of_write_two_write_part)]
fn write_part<W: fmt::Write>(f: &mut fmt::Formatter<W>, rows: &[Row], part: u8) -> fmt::Result {
    let Some(said) = phrase_of(rows, part) else {
        return Ok(());
    };
    match said {
        Phrase::Yes | Phrase::SomeStep | Phrase::NoStep => f.write_str(said.front()),
        Phrase::Mark(k) | Phrase::On(k) | Phrase::Off(k) => write_number(f, said, k),
        Phrase::Not(p)
        | Phrase::SomeStepTo(p)
        | Phrase::EveryStepTo(p)
        | Phrase::SomeComesTo(p)
        | Phrase::EveryComesTo(p)
        | Phrase::SomeHas(p)
        | Phrase::EveryHas(p) => write_of(f, rows, said.front(), p, part),
        Phrase::And(p, q) | Phrase::Or(p, q) | Phrase::SomeUntil(p, q) | Phrase::EveryUntil(p, q) =>
            write_two(f, rows, said, p, q, part),
    }
}

// The rule of a table, in words.
#[derive(Clone, Copy)]
pub(crate) struct Worded<'a>(pub(crate) &'a [Row]);

impl fmt::Display for Worded<'_> {
    fn fmt<W: fmt::Write>(&self, f: &mut fmt::Formatter<W>) -> fmt::Result {
        write_part(f, self.0, whole(self.0))
    }
}
