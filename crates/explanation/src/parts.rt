// The parts of a rule: the rows of its table, by their numbers.
use conditions::set::ConditionSet;
use conditions::word::Word;
use tables::row::{Operation, Row};
use tables::table::read_row;

// The number of the whole rule, which is the last row.
pub(crate) fn whole(rows: &[Row]) -> u8 {
    let last = rows.len().saturating_sub(1);
    u8::try_from(last).unwrap_or(u8::MAX)
}

// The operation of a part; absent where it is no row of the table.
pub(crate) fn operation(rows: &[Row], part: u8) -> Option<Operation> {
    let number = usize::from(part);
    read_row(*rows.get(number)?, number, Word::conditions())
}

// The part behind a `not`.
pub(crate) fn negated(rows: &[Row], part: u8) -> Option<u8> {
    match operation(rows, part) {
        Some(Operation::Not(p)) => Some(p),
        _ => None,
    }
}

// The two parts of "E[p U q]".
pub(crate) fn until_parts(rows: &[Row], part: u8) -> Option<(u8, u8)> {
    match operation(rows, part) {
        Some(Operation::Until(p, q)) => Some((p, q)),
        _ => None,
    }
}

// The two parts of "p & q".
pub(crate) fn and_parts(rows: &[Row], part: u8) -> Option<(u8, u8)> {
    match operation(rows, part) {
        Some(Operation::And(p, q)) => Some((p, q)),
        _ => None,
    }
}

// The part of "EG p".
pub(crate) fn always_part(rows: &[Row], part: u8) -> Option<u8> {
    match operation(rows, part) {
        Some(Operation::Always(p)) => Some(p),
        _ => None,
    }
}

pub(crate) fn says_yes(rows: &[Row], part: u8) -> bool {
    matches!(operation(rows, part), Some(Operation::Yes))
}
