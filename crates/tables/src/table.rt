// Reading rule tables.
ghost use Rattle.std.specs.Prelude.{◌≡◌, true, false, MatchOption};
ghost use Rattle.tables.specs.Tables.{accepted, coded, row_fits};

use crate::row::{Operation, Row};
use routing::network::MARKS;

// The most rows of a table.
pub const MOST_ROWS: usize = 32;

// The operation of a row that stands at number `at` of a table over so many conditions; absent where the row does not fit.
pub fn read_row(row: Row, at: usize, conditions: u32) -> Option<Operation>
    ensures { MatchOption result (row_fits conditions at row ≡ false)
        (λ op. (row_fits conditions at row ≡ true) × (coded op ≡ row)) }
{
    let p = row.first;
    let q = row.second;
    let earlier = usize::from(p) < at;
    let alone = q == 0;
    let later = usize::from(q) < at;
    let (fits, operation) = match row.operation {
        0 => (p == 0 && alone, Operation::Yes),
        1 => (p < MARKS && alone, Operation::Mark(p)),
        2 => (u32::from(p) < conditions && alone, Operation::Condition(p)),
        3 => (earlier && alone, Operation::Not(p)),
        4 => (earlier && later, Operation::And(p, q)),
        5 => (earlier && later, Operation::Or(p, q)),
        6 => (earlier && alone, Operation::Next(p)),
        7 => (earlier && later, Operation::Until(p, q)),
        8 => (earlier && alone, Operation::Always(p)),
        _ => return None,
    };
    fits.then_some(operation)
}

// Whether the table is one that judging takes, over so many conditions.
pub fn is_accepted(table: &[Row], conditions: u32) -> bool
    ensures { result ≡ accepted conditions table.now }
{
    if table.is_empty() || table.len() > MOST_ROWS {
        return false;
    }
    for (i, row) in table.iter().enumerate() {
        if read_row(*row, i, conditions).is_none() {
            return false;
        }
    }
    true
}
