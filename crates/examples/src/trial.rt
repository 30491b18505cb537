// The trial plan: an order goes from place 0 to place 1 while condition 0 is on.
use crate::example::{C0, Example, Forwards};

static MARKS: [u32; 2] = [
    1, // 0: the entry, mark 0
    2, // 1: the queue, mark 1
];

static BINDINGS: [Forwards; 1] = [
    Forwards(0, 1, C0), // the entry to the queue while condition 0 is on
];

static RULES: [&[u8]; 2] = [b"AF m1", b"EF m1 | !c0"];

pub fn example() -> Example {
    Example {
        name: "trial",
        marks: &MARKS,
        bindings: &BINDINGS,
        rules: &RULES,
    }
}
