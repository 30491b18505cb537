// A refusal in words.
use crate::problem::Source;
use explanation::text::Printable;
use plan::fault::{FileFault, FileFaultKind, PlanFault};
use plan::file::rules::rule_text;
use rule_text::fault::{Fault, FaultKind};
use session::fault::{ScriptFault, ScriptFaultKind};
use std::fmt;

// A plan that is refused: where it is from, the front of its file, and its fault.
#[derive(Drop)]
pub struct RefusedPlan {
    pub source: Source,
    pub file: Vec<u8>,
    pub fault: PlanFault,
}

fn file_words(kind: FileFaultKind) -> &'static str {
    match kind {
        FileFaultKind::BadContents => "a contents entry has another kind or start than it should",
        FileFaultKind::WrongLength => "the file is cut or too long",
        FileFaultKind::NoPlace => "a binding end is not a place",
        FileFaultKind::OverLimit => "a count or a text's length is over its limit",
    }
}

// A script that is refused: where it is from, and its fault.
#[derive(Drop)]
pub struct RefusedScript {
    pub source: Source,
    pub fault: ScriptFault,
}

fn text_words(fault: Fault, length: usize) -> &'static str {
    match fault.kind {
        FaultKind::UnknownWord => "a word is unknown, or a byte is a stray one",
        FaultKind::CannotFollow if fault.byte >= length => "the rule is unfinished at its end",
        FaultKind::CannotFollow => "a word cannot follow the words before it",
        FaultKind::OutOfRange => "the number of a mark or a condition is out of range",
        FaultKind::TooDeep => "a word stands too deep, at a 33rd level",
        FaultKind::TooManyRows => "the rule has too many rows, over 32",
        FaultKind::TooLong => "the text is too long, over 200 bytes",
    }
}

fn write_file_fault<W: fmt::Write>(f: &mut fmt::Formatter<W>, fault: FileFault) -> fmt::Result {
    let words = file_words(fault.kind);
    let number = fault.number();
    let at = match fault.kind {
        FileFaultKind::WrongLength => "at its end, byte",
        _ => "at byte",
    };
    write!(f, "{words} (refusal {number}, {at} {})", fault.byte)
}

// Writes the text on a line, and on the next a caret below the byte.
fn write_caret<W: fmt::Write>(f: &mut fmt::Formatter<W>, text: &[u8], byte: usize) -> fmt::Result {
    write!(f, "\n  {}\n  {:byte$}^", Printable(text), "")
}

// Writes what is wrong, and the text with a caret below the byte.
fn write_text_fault<W: fmt::Write>(
    f: &mut fmt::Formatter<W>,
    rule: usize,
    text: &[u8],
    fault: Fault,
) -> fmt::Result {
    let words = text_words(fault, text.len());
    let number = fault.number();
    let byte = fault.byte;
    write!(
        f,
        "{words} (refusal {number}, in rule {rule}, at byte {byte} of its text)"
    )?;
    write_caret(f, text, byte)
}

impl fmt::Display for RefusedPlan {
    fn fmt<W: fmt::Write>(&self, f: &mut fmt::Formatter<W>) -> fmt::Result {
        write!(f, "{} is refused: ", self.source)?;
        match self.fault {
            PlanFault::InFile(fault) => write_file_fault(f, fault),
            PlanFault::InText(rule, fault) => {
                let text = rule_text(&self.file, rule).unwrap_or(&[]);
                write_text_fault(f, rule, text, fault)
            }
        }
    }
}

// Writes what is wrong in a script.
fn write_script_fault<W: fmt::Write>(
    f: &mut fmt::Formatter<W>,
    kind: ScriptFaultKind,
) -> fmt::Result {
    match kind {
        ScriptFaultKind::TooLong => f.write_str("it has over 1048576 bytes"),
        ScriptFaultKind::NoCall => f.write_str("a line begins with a word that names no call"),
        ScriptFaultKind::NoChange => f.write_str("a word names no change"),
        ScriptFaultKind::NoDigit => f.write_str("a byte of a number is no digit"),
        ScriptFaultKind::OverField(bits) => write!(f, "a number has over {bits} bits"),
        ScriptFaultKind::TooFewWords => f.write_str("a word is missing"),
        ScriptFaultKind::TooManyWords => f.write_str("a word is one too many"),
        ScriptFaultKind::NotOpened => f.write_str("no board is opened before"),
        ScriptFaultKind::SecondOpen => f.write_str("a board is opened before"),
        ScriptFaultKind::BadRule { fault, length } => {
            let words = text_words(fault, length);
            let number = fault.number();
            write!(
                f,
                "{words} (refusal {number}, at byte {} of the rule)",
                fault.byte
            )
        }
    }
}

impl fmt::Display for RefusedScript {
    fn fmt<W: fmt::Write>(&self, f: &mut fmt::Formatter<W>) -> fmt::Result {
        let ScriptFault { kind, line, column } = self.fault;
        write!(f, "{} is refused: ", self.source)?;
        write_script_fault(f, kind)?;
        write!(f, ", line {line}, column {column}")
    }
}
