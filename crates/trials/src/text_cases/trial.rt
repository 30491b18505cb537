// Reads a text and compares what it gives with what it must give.
use crate::spelling::{END, byte_of, halves, number};
use crate::tried::Tried;
use conditions::set::ConditionSet;
use rule_text::read::read_rule;
use std::alloc::{AllocError, Global};
use std::fmt;
use tables::row::Row;

// The rows of a table, each as OPERATION.FIRST.SECOND.
#[derive(Clone, Copy)]
struct Rows<'a>(&'a [Row]);

impl fmt::Display for Rows<'_> {
    fn fmt<W: fmt::Write>(&self, f: &mut fmt::Formatter<W>) -> fmt::Result {
        let mut between = "";
        for Row {
            operation,
            first,
            second,
        } in self.0 {
            write!(f, "{between}{operation}.{first}.{second}")?;
            between = " ";
        }
        Ok(())
    }
}

// The bytes of a text, one for each character.
fn bytes_of(heap: Global, text: &str) -> Result<Vec<u8>, AllocError> {
    let mut bytes = Vec::new(heap);
    for c in text.chars() {
        bytes.push(byte_of(c))?;
    }
    Ok(bytes)
}

// The text that a case gives, or that is built of what it gives.
fn text_of(heap: Global, spelled: &str) -> Result<String, AllocError> {
    let (front, rest) = halves(spelled, ",");
    let (times, rest) = halves(rest, ",");
    let (part, back) = halves(rest, ",");
    format!(in heap; "{front}{}{back}", part.repeat(heap, number(times))?)
}

// What reading the text gives, spelled; it is counted.
fn read<S: ConditionSet>(text: &[u8], tried: &mut Tried) -> Result<String, AllocError> {
    match read_rule::<S>(text) {
        Ok(table) => {
            tried.outcomes.add(None);
            Rows(table.rows()).to_string(tried.heap)
        }
        Err(fault) => {
            tried.outcomes.add(Some(fault.number()));
            format!(in tried.heap; "refused {} at byte {}", fault.number(), fault.byte)
        }
    }
}

// Reads the text of a case and compares.
fn try_case<S: ConditionSet>(case: &str, tried: &mut Tried) -> Result<(), AllocError> {
    let (spelled, _) = halves(case, ": ");
    let text = text_of(tried.heap, spelled)?;
    let bytes = bytes_of(tried.heap, &text)?;
    let got = read::<S>(&bytes, tried)?;
    tried.compare(case, &got)
}

// Tries the cases of a list.
pub fn try_list<S: ConditionSet>(list: &str, tried: &mut Tried) -> Result<(), AllocError> {
    for case in list.split_terminator(END) {
        try_case::<S>(case, tried)?;
    }
    Ok(())
}
