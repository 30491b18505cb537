// Reading a script.
use crate::calls::{Head, head_of, read_call, read_room};
use crate::fault::{ScriptError, ScriptFault, ScriptFaultKind};
use crate::line::Line;
use crate::play::WHOLE_ROOM;
use board::call::Call;
use paper::room::Room;
use std::alloc::Global;

/// The most bytes of a script: 1 MiB.
pub const MOST_SCRIPT_BYTES: usize = 1_048_576;

/// A script: the number of the board, the marks of its own places, and the calls.
#[derive(Debug, Drop)]
pub struct Script {
    pub number: u32,
    pub marks: Vec<u32>,
    pub calls: Vec<Call>,
}

// A script as far as it is read.
#[derive(Drop)]
struct Reading {
    alloc: Global,
    // Absent until the board is opened.
    script: Option<Script>,
    // What the next call is lent.
    room: Room,
}

// The script of an `open`, with no calls yet.
fn read_opening(alloc: Global, line: &mut Line<'_>) -> Result<Script, ScriptError> {
    let number = line.number32()?;
    let own = line.number32()?;
    let mut marks = Vec::new(alloc);
    for _ in 0..own {
        marks.push(line.number32()?)?;
    }
    line.end()?;
    Ok(Script {
        number,
        marks,
        calls: Vec::new(alloc),
    })
}

impl Reading {
    // Takes the next line into account.
    fn add_line(&mut self, line: &mut Line<'_>) -> Result<(), ScriptError> {
        let Some(word) = line.next_word() else {
            return Ok(());
        };
        let Some(head) = head_of(word.bytes) else {
            return Err(line.fault(ScriptFaultKind::NoCall, word.column).into());
        };
        match (head, &mut self.script) {
            (Head::Open, None) => self.script = Some(read_opening(self.alloc, line)?),
            (Head::Open, Some(_)) => {
                return Err(line.fault(ScriptFaultKind::SecondOpen, word.column).into());
            }
            (_, None) => return Err(line.fault(ScriptFaultKind::NotOpened, word.column).into()),
            (Head::Room, Some(_)) => self.room = read_room(line)?,
            (Head::Call(name), Some(script)) => {
                script
                    .calls
                    .push(read_call(self.alloc, name, line, self.room)?)?;
            }
        }
        Ok(())
    }
}

// A fault behind the last byte of a text.
fn fault_behind(text: &[u8], kind: ScriptFaultKind) -> ScriptFault {
    let mut line = 1usize;
    let mut column = 1usize;
    for byte in text {
        if *byte == b'\n' {
            line = line.saturating_add(1);
            column = 1;
        } else {
            column = column.saturating_add(1);
        }
    }
    ScriptFault { kind, line, column }
}

// A script of at most 1 MiB.
fn read_lines(alloc: Global, text: &[u8]) -> Result<Script, ScriptError> {
    let mut reading = Reading {
        alloc,
        script: None,
        room: WHOLE_ROOM,
    };
    for (before, line) in text.split(|byte| *byte == b'\n').enumerate() {
        reading.add_line(&mut Line::new(before.saturating_add(1), line))?;
    }
    match reading.script {
        Some(script) => Ok(script),
        None => Err(fault_behind(text, ScriptFaultKind::NotOpened).into()),
    }
}

/// Reads a script, or tells its first fault: over 1 MiB, and else in the order of its lines and words.
pub fn read_script(alloc: Global, text: &[u8]) -> Result<Script, ScriptError> {
    match text.get(..MOST_SCRIPT_BYTES) {
        Some(front) if text.len() > MOST_SCRIPT_BYTES => {
            Err(fault_behind(front, ScriptFaultKind::TooLong).into())
        }
        _ => read_lines(alloc, text),
    }
}
