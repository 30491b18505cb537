// Reports a damaged file and compares what is printed with what must be.
use crate::file_cases::files::file_bytes;
use crate::spelling::{END, byte_of, halves, number};
use crate::tried::Tried;
use report::file::report;
use std::alloc::{AllocError, Global};

// Writes `START BYTES`: bytes over those from a start on; what would stand behind the end is left out.
fn overwrite(file: &mut Vec<u8>, written: &str) {
    let (start, bytes) = halves(written, " ");
    let mut at = number(start);
    for c in bytes.chars() {
        if let Some(kept) = file.get_mut(at) {
            *kept = byte_of(c);
        }
        at = at.saturating_add(1);
    }
}

// Writes bytes behind the end.
fn append(file: &mut Vec<u8>, bytes: &str) -> Result<(), AllocError> {
    for c in bytes.chars() {
        file.push(byte_of(c))?;
    }
    Ok(())
}

// Makes a change: `cut LENGTH`, `add BYTES` or `spaces COUNT` behind the end, or `put START BYTES`. No other is one.
fn apply(file: &mut Vec<u8>, change: &str) -> Result<(), AllocError> {
    let (kind, what) = halves(change, " ");
    match kind {
        "cut" => file.truncate(number(what)),
        "add" => append(file, what)?,
        "spaces" => file.resize(file.len().saturating_add(number(what)), b' ')?,
        "put" => overwrite(file, what),
        _ => {}
    }
    Ok(())
}

// The bytes of a file with its changes.
fn case_bytes(heap: Global, spelled: &str) -> Result<Vec<u8>, AllocError> {
    let (name, changes) = halves(spelled, ", ");
    let mut file = file_bytes(heap, name)?;
    for change in changes.split_terminator(", ") {
        apply(&mut file, change)?;
    }
    Ok(file)
}

// Reports the file of a case and compares; it is counted.
fn try_case(case: &str, tried: &mut Tried) -> Result<(), AllocError> {
    let (spelled, _) = halves(case, ": ");
    let file = case_bytes(tried.heap, spelled)?;
    let report = report(&file);
    tried
        .outcomes
        .add(report.fault().map(|fault| fault.number()));
    tried.compare(case, str::from_utf8(report.text()).unwrap_or("no text"))
}

// Tries the cases of a list, leaving out the headings among them.
pub fn try_list(list: &str, tried: &mut Tried) -> Result<(), AllocError> {
    for case in list.split_terminator(END) {
        if !case.starts_with('#') {
            try_case(case, tried)?;
        }
    }
    Ok(())
}
