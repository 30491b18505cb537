// Adding the rows of a form. The table is absent once there were more than 32 rows.
ghost use Rattle.std.specs.Prelude.{◌≡◌, [], ◌≢◌};
ghost use Rattle.tables.specs.Tables.{coded};
ghost use Rattle.rule_text.specs.Descent.{closing_rows, closing_until, LastIs, next_number, opening_rows, push_row, push_rows, rows_kept};

use crate::table::Table;
use crate::word::{Prefix, Quantifier};
use tables::row::{Operation, Row};

// Adds a row, or gives the table up where it is full.
// Answers the number of the row, or 0 where there is none.
pub(crate) fn emit(t: &mut Option<Table>, operation: Operation) -> u8
    ensures rows { rows_kept t.new ≡ push_row (rows_kept t.old) (coded operation) }
    ensures last { LastIs (rows_kept t.new) result }
{
    let Some(table) = t else {
        return 0;
    };
    let Some(number) = table.push(Row::from(operation)) else {
        *t = None;
        return 0;
    };
    number
}

// Adds the row before the part of a prefix. Answers its number, or 0 where the prefix has none.
pub(crate) fn open_prefix(t: &mut Option<Table>, prefix: Prefix) -> u8
    ensures rows { rows_kept t.new ≡ push_rows (rows_kept t.old) (opening_rows prefix) }
    ensures last { opening_rows prefix ≢ [] → LastIs (rows_kept t.new) result }
{
    match prefix {
        Prefix::Ef | Prefix::Ag => emit(t, Operation::Yes),
        _ => 0,
    }
}

// Adds the rows behind the part of a prefix. `first` is the number of the row before the part,
// `part` that of its last row.
pub(crate) fn close_prefix(t: &mut Option<Table>, prefix: Prefix, first: u8, part: u8) -> u8
    ensures rows { rows_kept t.new
        ≡ push_rows (rows_kept t.old)
        (closing_rows prefix first part (next_number (rows_kept t.old))) }
    ensures last { LastIs (rows_kept t.new) result }
{
    match prefix {
        Prefix::Not => emit(t, Operation::Not(part)),
        Prefix::Ex => emit(t, Operation::Next(part)),
        Prefix::Eg => emit(t, Operation::Always(part)),
        Prefix::Ef => emit(t, Operation::Until(first, part)),
        Prefix::Ax => {
            let not_part = emit(t, Operation::Not(part));
            let next = emit(t, Operation::Next(not_part));
            emit(t, Operation::Not(next))
        }
        Prefix::Af => {
            let not_part = emit(t, Operation::Not(part));
            let always = emit(t, Operation::Always(not_part));
            emit(t, Operation::Not(always))
        }
        Prefix::Ag => {
            let not_part = emit(t, Operation::Not(part));
            let until = emit(t, Operation::Until(first, not_part));
            emit(t, Operation::Not(until))
        }
    }
}

// Adds the rows behind the parts of an until, whose last rows are `p` and `q`.
pub(crate) fn close_until(t: &mut Option<Table>, quantifier: Quantifier, p: u8, q: u8) -> u8
    ensures rows { rows_kept t.new
        ≡ push_rows (rows_kept t.old)
        (closing_until quantifier p q (next_number (rows_kept t.old))) }
    ensures last { LastIs (rows_kept t.new) result }
{
    match quantifier {
        Quantifier::Exists => emit(t, Operation::Until(p, q)),
        Quantifier::Forall => {
            let not_p = emit(t, Operation::Not(p));
            let not_q = emit(t, Operation::Not(q));
            let neither = emit(t, Operation::And(not_p, not_q));
            let until = emit(t, Operation::Until(not_q, neither));
            let always = emit(t, Operation::Always(not_q));
            let either = emit(t, Operation::Or(until, always));
            emit(t, Operation::Not(either))
        }
    }
}
