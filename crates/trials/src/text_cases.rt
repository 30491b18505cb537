// Reads texts, valid and damaged, whose tables and refusals are worked out by hand, and compares.
// Prints what was read; it is an error where anything differs, or where some refusal never came.

mod cases;
mod trial;

use crate::text_cases::cases::{built, damaged, plain, valid};
use crate::text_cases::trial::try_list;
use crate::tried::Tried;
use conditions::plain::Plain;
use conditions::word::Word;
use std::alloc::AllocError;
use std::io;

// The numbers of the refusals.
const REFUSALS: [u8; 6] = [1, 2, 3, 4, 5, 9];

// The texts for word sets.
static WORD_LISTS: [&str; 11] = [
    valid::FORMS,
    valid::BINDING,
    valid::SPACING,
    valid::NESTED,
    damaged::UNKNOWN,
    damaged::UNFIT,
    damaged::OUT_OF_RANGE,
    damaged::TWO_FAULTS,
    built::LEVELS,
    built::ROWS,
    built::BYTES,
];

// Reads all texts.
fn try_lists(tried: &mut Tried) -> Result<(), AllocError> {
    for list in &WORD_LISTS {
        try_list::<Word>(list, tried)?;
    }
    try_list::<Plain>(plain::PLAIN, tried)
}

// Prints the differences, and a line for each count.
fn print_tried(rt: &impl Print, tried: &Tried) -> io::Result<()> {
    let outcomes = &tried.outcomes;
    print!(rt; "{}", tried.differences)?;
    println!(rt;
        "texts: {}\nvalid: {}",
        outcomes.total(),
        outcomes.accepted()
    )?;
    outcomes.print_refused(rt)?;
    println!(rt; "differences: {}", outcomes.differences())
}

// Tries all texts.
pub fn try_texts(rt: &HostRuntime) -> anyhow::Result<()> {
    let mut tried = Tried::new(rt.alloc(), &REFUSALS);
    try_lists(&mut tried)?;
    print_tried(rt, &tried)?;
    tried.outcomes.ensure_right()
}
