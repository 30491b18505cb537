// A rule table as it is read from a text: room for 32 rows, of which the first ones are the table.
ghost use Rattle.std.specs.Prelude.{◌≡◌, ◌<◌, ◌≤◌, ◌↔◌, [], ◌∷◌, ◌++◌, length, IfNone, IfSome, IsSome};

use tables::row::{Operation, Row};
use tables::table::MOST_ROWS;

// An array with its length, as arrayvec's list is not Copy.
#[derive(Clone, Copy)]
pub struct Table {
    rows: [Row; MOST_ROWS],
    len: usize,
    ghost few: { len ≤ 32 },
    ghost sized: { length rows ≡ 32 },
}

impl Table {
    ghost use Rattle.rule_text.specs.Reading.{table_rows};

    // A table with no rows yet.
    pub(crate) fn new() -> Table
        ensures { table_rows result ≡ [] }
    {
        Table {
            rows: [Row::from(Operation::Yes); MOST_ROWS],
            len: 0,
        }
    }

    // Adds a row and answers its number; absent where the table is full.
    pub(crate) fn push(&mut self, row: Row) -> Option<u8>
        ensures room { IsSome result ↔ (length (table_rows self.old) < 32) }
        ensures number { IfSome result (λ number. number ≡ length (table_rows self.old)) }
        ensures added { IfSome result
            (λ _. table_rows self.new ≡ table_rows self.old ++ (row ∷ [])) }
        ensures kept { IfNone result (self.new ≡ self.old) }
    {
        if self.len >= MOST_ROWS {
            return None;
        }
        let number = self.len as u8;
        self.rows[self.len] = row;
        self.len += 1;
        Some(number)
    }

    // The rows of the table, for judging.
    pub fn rows(&self) -> &[Row]
        ensures { result.now ≡ table_rows self.now }
    {
        &self.rows[..self.len]
    }
}
