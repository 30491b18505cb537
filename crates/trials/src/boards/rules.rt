// Rule tables that are drawn to be adopted, accepted ones and others, and reading them.
use crate::generator::random::Random;
use crate::generator::table::{draw_condition, draw_mark, draw_table};
use std::alloc::{AllocError, Global};
use tables::row::{Operation, Row};

const MOST_ROWS: usize = 32;

// The operation of a row at a number of a table over so many conditions; absent where the row is none.
fn read_row(row: &Row, at: usize, conditions: u32) -> Option<Operation> {
    let (p, q) = (row.first, row.second);
    let alone = q == 0;
    let one = usize::from(p) < at && alone;
    let two = usize::from(p) < at && usize::from(q) < at;
    match row.operation {
        0 if p == 0 && alone => Some(Operation::Yes),
        1 if p < 32 && alone => Some(Operation::Mark(p)),
        2 if u32::from(p) < conditions && alone => Some(Operation::Condition(p)),
        3 if one => Some(Operation::Not(p)),
        4 if two => Some(Operation::And(p, q)),
        5 if two => Some(Operation::Or(p, q)),
        6 if one => Some(Operation::Next(p)),
        7 if two => Some(Operation::Until(p, q)),
        8 if one => Some(Operation::Always(p)),
        _ => None,
    }
}

// The operations of a table over so many conditions; absent where it is not accepted.
pub fn read_table(
    heap: Global,
    rows: &[Row],
    conditions: u32,
) -> Result<Option<Vec<Operation>>, AllocError> {
    if rows.is_empty() || rows.len() > MOST_ROWS {
        return Ok(None);
    }
    let mut table = Vec::new(heap);
    for (at, row) in rows.iter().enumerate() {
        match read_row(row, at, conditions) {
            Some(operation) => table.push(operation)?,
            None => return Ok(None),
        }
    }
    Ok(Some(table))
}

// A mark, or a condition where there is one.
fn draw_leaf(random: &mut Random, conditions: u32) -> Operation {
    if conditions > 0 && random.one_in(4) {
        Operation::Condition(draw_condition(random, conditions))
    } else {
        Operation::Mark(draw_mark(random))
    }
}

// A table of a form of rules: of every step, of every route, or of some.
fn draw_form(
    heap: Global,
    random: &mut Random,
    conditions: u32,
) -> Result<Vec<Operation>, AllocError> {
    use Operation::{Always, And, Next, Not, Or, Until, Yes};
    let (p, q) = (draw_leaf(random, conditions), draw_leaf(random, conditions));
    // Row 0, or row 1, which says not row 0.
    let x = u8::from(random.one_in(2));
    let table = match random.below(6) {
        0 => vec![in heap; p, Not(0), Next(x), Not(2)]?,
        1 => vec![in heap; p, Not(0), Yes, Until(2, x), Not(3)]?,
        2 => vec![in heap; p, Not(0), Always(x), Not(2)]?,
        3 => vec![in heap; p, Not(0), Next(x)]?,
        _ => {
            vec![in heap;
                p,
                Not(0),
                q,
                Not(2),
                And(x, 3),
                Until(3, 4),
                Always(3),
                Or(5, 6),
                Not(7),
            ]?
        }
    };
    Ok(table)
}

// A row that stands in no table at this number.
fn draw_damage(random: &mut Random, at: usize, conditions: u32) -> Row {
    let at = u8::try_from(at).unwrap_or(u8::MAX);
    match random.below(6) {
        0 => Row {
            operation: 9,
            first: 0,
            second: 0,
        },
        1 => Row {
            operation: 3,
            first: 0,
            second: 1,
        },
        2 => Row {
            operation: 0,
            first: 1,
            second: 0,
        },
        3 => Row {
            operation: 2,
            first: u8::try_from(conditions).unwrap_or(u8::MAX),
            second: 0,
        },
        4 => Row::from(Operation::Mark(32)),
        _ => Row::from(Operation::Until(0, at)),
    }
}

// Makes a table one that is not accepted.
fn damage(
    heap: Global,
    random: &mut Random,
    table: &mut Vec<Row>,
    conditions: u32,
) -> Result<(), AllocError> {
    match random.below(4) {
        0 => table.truncate(0),
        1 => *table = vec![in heap; Row::from(Operation::Yes); MOST_ROWS + 1]?,
        _ => table.push(draw_damage(random, table.len(), conditions))?,
    }
    Ok(())
}

// A rule that may hold: yes alone, a form, or any; one time in eight no table.
pub fn draw_rule(
    heap: Global,
    random: &mut Random,
    conditions: u32,
) -> Result<Vec<Row>, AllocError> {
    let operations = match random.below(8) {
        0 => vec![in heap; Operation::Yes]?,
        1 => draw_table(heap, random, conditions)?,
        _ => draw_form(heap, random, conditions)?,
    };
    let mut table = Vec::new(heap);
    for operation in &operations {
        table.push(Row::from(*operation))?;
    }
    if random.one_in(8) {
        damage(heap, random, &mut table, conditions)?;
    }
    Ok(table)
}
