// Drawn rule tables, which judging accepts.
use crate::generator::random::Random;
use std::alloc::{AllocError, Global};
use tables::row::Operation;

const MOST_ROWS: usize = 8;

// The number of a row before row `at`: the last of them, or any.
fn draw_earlier(random: &mut Random, at: usize) -> u8 {
    let any = random.below(at);
    let row = if random.one_in(2) {
        at.saturating_sub(1)
    } else {
        any
    };
    u8::try_from(row).unwrap_or(0)
}

// A mark: one of the first, or any.
pub fn draw_mark(random: &mut Random) -> u8 {
    let mask = if random.one_in(4) { 31 } else { 3 };
    (random.word() & mask) as u8
}

// One of so many conditions.
pub fn draw_condition(random: &mut Random, conditions: u32) -> u8 {
    u8::try_from(random.below(conditions as usize)).unwrap_or(0)
}

// Row `at` of a table over so many conditions: operations on routes more often than the others.
fn draw_operation(random: &mut Random, at: usize, conditions: u32) -> Operation {
    let earlier = at > 0;
    match random.below(16) {
        0 => Operation::Yes,
        3 if conditions > 0 => Operation::Condition(draw_condition(random, conditions)),
        4 | 5 if earlier => Operation::Not(draw_earlier(random, at)),
        6 if earlier => Operation::And(draw_earlier(random, at), draw_earlier(random, at)),
        7 | 8 if earlier => Operation::Or(draw_earlier(random, at), draw_earlier(random, at)),
        9 if earlier => Operation::Next(draw_earlier(random, at)),
        10..=12 if earlier => Operation::Until(draw_earlier(random, at), draw_earlier(random, at)),
        13..=15 if earlier => Operation::Always(draw_earlier(random, at)),
        _ => Operation::Mark(draw_mark(random)),
    }
}

// The rows that a table begins with: a route to a mark, a route without a mark, or none.
fn draw_start(heap: Global, random: &mut Random) -> Result<Vec<Operation>, AllocError> {
    let mark = Operation::Mark(draw_mark(random));
    match random.below(3) {
        0 => Ok(vec![in heap; Operation::Yes, mark, Operation::Until(0, 1)]?),
        1 => Ok(vec![in heap; mark, Operation::Not(0), Operation::Always(1)]?),
        _ => Ok(Vec::new(heap)),
    }
}

// A table of one to eight rows.
pub fn draw_table(
    heap: Global,
    random: &mut Random,
    conditions: u32,
) -> Result<Vec<Operation>, AllocError> {
    let mut table = draw_start(heap, random)?;
    let rows = random.below(MOST_ROWS).saturating_add(1);
    table.truncate(rows);
    for at in table.len()..rows {
        table.push(draw_operation(random, at, conditions))?;
    }
    Ok(table)
}
