// The calls of a script, each read from its line.
use crate::fault::{ScriptError, ScriptFault, ScriptFaultKind};
use crate::line::Line;
use board::call::Call;
use conditions::word::Word;
use paper::change::Change;
use paper::numbers::Numbers;
use paper::own::OwnBinding;
use paper::room::Room;
use rule_text::read::read_rule;
use std::alloc::Global;
use tables::row::Row;

// The calls by their names.
#[derive(Clone, Copy)]
pub(crate) enum CallName {
    Adopt,
    AdoptRows,
    Propose,
    Revise,
    Admit,
    Withdraw,
    Proposals,
}

// How a line begins.
#[derive(Clone, Copy)]
pub(crate) enum Head {
    Open,
    Room,
    Call(CallName),
}

// What the first word of a line begins, if it is the name of something.
pub(crate) fn head_of(word: &[u8]) -> Option<Head> {
    Some(match word {
        b"open" => Head::Open,
        b"room" => Head::Room,
        b"adopt" => Head::Call(CallName::Adopt),
        b"adopt-rows" => Head::Call(CallName::AdoptRows),
        b"propose" => Head::Call(CallName::Propose),
        b"revise" => Head::Call(CallName::Revise),
        b"admit" => Head::Call(CallName::Admit),
        b"withdraw" => Head::Call(CallName::Withdraw),
        b"proposals" => Head::Call(CallName::Proposals),
        _ => return None,
    })
}

// The lengths of the lists that are lent.
pub(crate) fn read_room(line: &mut Line<'_>) -> Result<Room, ScriptFault> {
    let main = line.number32()? as usize;
    let spare = line.number32()? as usize;
    let steps = line.number32()? as usize;
    line.end()?;
    Ok(Room { main, spare, steps })
}

// The table of the rule that the rest of the line is.
fn read_text(alloc: Global, line: &mut Line<'_>) -> Result<Vec<Row>, ScriptError> {
    let text = line.all_words();
    match read_rule::<Word>(text.bytes) {
        Ok(table) => Ok(Vec::from_slice(alloc, table.rows())?),
        Err(fault) => {
            let column = text.column.saturating_add(fault.byte);
            let length = text.bytes.len();
            Err(
                line.fault(ScriptFaultKind::BadRule { fault, length }, column)
                    .into(),
            )
        }
    }
}

fn read_row(line: &mut Line<'_>) -> Result<Row, ScriptFault> {
    Ok(Row {
        operation: line.number8()?,
        first: line.number8()?,
        second: line.number8()?,
    })
}

// A table: the number of its rows, and the rows.
fn read_rows(alloc: Global, line: &mut Line<'_>) -> Result<Vec<Row>, ScriptError> {
    let count = line.number32()?;
    let mut rows = Vec::new(alloc);
    for _ in 0..count {
        rows.push(read_row(line)?)?;
    }
    Ok(rows)
}

// The two numbers of a ticket.
fn read_numbers(line: &mut Line<'_>) -> Result<Numbers, ScriptFault> {
    Ok(Numbers {
        board: line.number32()?,
        serial: line.number32()?,
    })
}

fn read_binding(line: &mut Line<'_>) -> Result<OwnBinding, ScriptFault> {
    Ok(OwnBinding {
        from: line.number16()?,
        to: line.number16()?,
        on: line.number16()?,
        off: line.number16()?,
    })
}

fn read_change(line: &mut Line<'_>) -> Result<Change, ScriptFault> {
    let word = line.word()?;
    match word.bytes {
        b"bind" => Ok(Change::Bind(read_binding(line)?)),
        b"unbind" => Ok(Change::Unbind(usize::from(line.number16()?))),
        b"recondition" => Ok(Change::Recondition(
            usize::from(line.number16()?),
            line.number16()?,
            line.number16()?,
        )),
        _ => Err(line.fault(ScriptFaultKind::NoChange, word.column)),
    }
}

// The call of that name, lent so much of the lists, with the words that follow as its arguments.
pub(crate) fn read_call(
    alloc: Global,
    name: CallName,
    line: &mut Line<'_>,
    room: Room,
) -> Result<Call, ScriptError> {
    let call = match name {
        CallName::Adopt => Call::Adopt(read_text(alloc, line)?, room),
        CallName::AdoptRows => Call::Adopt(read_rows(alloc, line)?, room),
        CallName::Propose => Call::Propose(read_change(line)?),
        CallName::Revise => Call::Revise(read_numbers(line)?, read_change(line)?),
        CallName::Admit => Call::Admit(read_numbers(line)?, room),
        CallName::Withdraw => Call::Withdraw(read_numbers(line)?),
        CallName::Proposals => Call::AskOpen,
    };
    line.end()?;
    Ok(call)
}
