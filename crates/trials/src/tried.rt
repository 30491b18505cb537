// How cases came out.
use crate::outcomes::Outcomes;
use crate::spelling::halves;
use std::alloc::{AllocError, Global};
use std::fmt::Write;

// Counts, and what differed, spelled.
#[derive(Drop)]
pub struct Tried<'a> {
    pub heap: Global,
    pub outcomes: Outcomes<'a>,
    pub differences: String,
}

impl<'a> Tried<'a> {
    // No case was tried yet; each of these refusals has to come.
    pub fn new(heap: Global, refusals: &'a [u8]) -> Tried<'a> {
        Tried {
            heap,
            outcomes: Outcomes::new(refusals),
            differences: String::new(heap),
        }
    }

    // Compares what a case gave with what it must give.
    pub fn compare(&mut self, case: &str, got: &str) -> Result<(), AllocError> {
        let (_, expected) = halves(case, ": ");
        if got != expected {
            self.outcomes.add_difference();
            writeln!(self.differences, "case: {case}\n  got: {got}")?;
        }
        Ok(())
    }
}
