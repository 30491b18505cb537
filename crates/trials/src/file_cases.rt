// Reports damaged and whole plan files whose lines are worked out by hand, and compares.
// Prints what came; it is an error where a line differs, or where some refusal never came.

mod cases;
mod files;
mod trial;

use crate::file_cases::cases::{fields, orders, texts, whole};
use crate::file_cases::trial::try_list;
use crate::tried::Tried;
use std::alloc::AllocError;
use std::io;

// The numbers of the refusals.
const REFUSALS: [u8; 9] = [1, 2, 3, 4, 5, 6, 7, 8, 9];

static LISTS: [&str; 15] = [
    whole::WHOLE,
    fields::CUT,
    fields::COUNTS,
    fields::CONTENTS,
    fields::LENGTHS,
    fields::FILE_END,
    fields::BINDING_ENDS,
    texts::TEXTS,
    orders::UNDER_24,
    orders::COUNTS,
    orders::CONTENTS,
    orders::LENGTHS,
    orders::FILE_END,
    orders::BINDING_ENDS,
    orders::TEXTS,
];

// Reports all files.
fn try_lists(tried: &mut Tried) -> Result<(), AllocError> {
    for list in &LISTS {
        try_list(list, tried)?;
    }
    Ok(())
}

// Prints the differences, and a line for each count.
fn print_tried(rt: &impl Print, tried: &Tried) -> io::Result<()> {
    let outcomes = &tried.outcomes;
    print!(rt; "{}", tried.differences)?;
    outcomes.print_refused(rt)?;
    println!(rt; "not refused: {}", outcomes.accepted())?;
    println!(rt;
        "{} files, {} differences",
        outcomes.total(),
        outcomes.differences()
    )
}

// Tries all files.
pub fn try_files(rt: &HostRuntime) -> anyhow::Result<()> {
    let mut tried = Tried::new(rt.alloc(), &REFUSALS);
    try_lists(&mut tried)?;
    print_tried(rt, &tried)?;
    tried.outcomes.ensure_right()
}
