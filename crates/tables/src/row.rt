// A row of a rule table, and its operation by name.
ghost use Rattle.std.specs.Prelude.{◌≡◌};
ghost use Rattle.tables.specs.Tables.{coded};

// A row as a caller hands it in: an operation by its number, and two operands. It may be no row of any table.
#[derive(Clone, Copy, Debug, Default, PartialEq, Eq)]
pub struct Row {
    pub operation: u8,
    pub first: u8,
    pub second: u8,
}

// A row as it is read: the operation by name. `p` and `q` are the numbers of earlier rows.
#[derive(Clone, Copy, Debug, PartialEq, Eq)]
pub enum Operation {
    // Yes.
    Yes,
    // The place has mark k.
    Mark(u8),
    // Condition k is on.
    Condition(u8),
    // Not p.
    Not(u8),
    // p and q.
    And(u8, u8),
    // p or q.
    Or(u8, u8),
    // Some step leads to a position with p.
    Next(u8),
    // Some route from here has a position with q, and p at each position before it.
    Until(u8, u8),
    // Some route from here has p at each of its positions.
    Always(u8),
}

// The row of an operation, by its number.
impl From<Operation> for Row {
    ghost from_gives = { λ operation row. row ≡ coded operation };

    fn from(operation: Operation) -> Row {
        let (operation, first, second) = match operation {
            Operation::Yes => (0, 0, 0),
            Operation::Mark(k) => (1, k, 0),
            Operation::Condition(k) => (2, k, 0),
            Operation::Not(p) => (3, p, 0),
            Operation::And(p, q) => (4, p, q),
            Operation::Or(p, q) => (5, p, q),
            Operation::Next(p) => (6, p, 0),
            Operation::Until(p, q) => (7, p, q),
            Operation::Always(p) => (8, p, 0),
        };
        Row {
            operation,
            first,
            second,
        }
    }
}
