// A line of a script, read word by word.
use crate::fault::{ScriptFault, ScriptFaultKind};

// A word, with the column of its first byte.
#[derive(Clone, Copy)]
pub(crate) struct Word<'a> {
    pub(crate) bytes: &'a [u8],
    pub(crate) column: usize,
}

#[derive(Drop)]
pub(crate) struct Line<'a> {
    // Its number, from 1.
    number: usize,
    // What is not read yet, and the column of its first byte.
    rest: &'a [u8],
    column: usize,
}

// The line without the carriage return at its end.
fn without_return(line: &[u8]) -> &[u8] {
    match line {
        [before @ .., b'\r'] => before,
        _ => line,
    }
}

// The line before its comment.
fn without_comment(line: &[u8]) -> &[u8] {
    match line.iter().position(|byte| *byte == b'#') {
        Some(at) => line.get(..at).unwrap_or(line),
        None => line,
    }
}

// The line without the spaces at its end.
fn without_spaces(line: &[u8]) -> &[u8] {
    match line.iter().rposition(|byte| *byte != b' ') {
        Some(last) => line.get(..=last).unwrap_or(line),
        None => &[],
    }
}

impl<'a> Line<'a> {
    // The line with this number, from 1.
    pub(crate) fn new(number: usize, line: &'a [u8]) -> Line<'a> {
        Line {
            number,
            rest: without_spaces(without_comment(without_return(line))),
            column: 1,
        }
    }

    // A fault in the line.
    pub(crate) fn fault(&self, kind: ScriptFaultKind, column: usize) -> ScriptFault {
        ScriptFault {
            kind,
            line: self.number,
            column,
        }
    }

    // Takes so many bytes, or those that there are.
    fn take(&mut self, count: usize) -> &'a [u8] {
        let (taken, rest) = self.rest.split_at(count.min(self.rest.len()));
        self.rest = rest;
        self.column = self.column.saturating_add(taken.len());
        taken
    }

    // Goes to the next word.
    fn skip_spaces(&mut self) {
        let spaces = self.rest.iter().position(|byte| *byte != b' ');
        let _ = self.take(spaces.unwrap_or(usize::MAX));
    }

    // The next word, if there is one.
    pub(crate) fn next_word(&mut self) -> Option<Word<'a>> {
        self.skip_spaces();
        if self.rest.is_empty() {
            return None;
        }
        let column = self.column;
        let end = self.rest.iter().position(|byte| *byte == b' ');
        let bytes = self.take(end.unwrap_or(usize::MAX));
        Some(Word { bytes, column })
    }

    // The next word, which has to be there.
    pub(crate) fn word(&mut self) -> Result<Word<'a>, ScriptFault> {
        match self.next_word() {
            Some(word) => Ok(word),
            None => Err(self.fault(ScriptFaultKind::TooFewWords, self.column)),
        }
    }

    // The end of the line, which has to be next.
    pub(crate) fn end(&mut self) -> Result<(), ScriptFault> {
        match self.next_word() {
            Some(word) => Err(self.fault(ScriptFaultKind::TooManyWords, word.column)),
            None => Ok(()),
        }
    }

    // All words that are left, with the spaces between them.
    pub(crate) fn all_words(&mut self) -> Word<'a> {
        self.skip_spaces();
        let column = self.column;
        let bytes = self.take(usize::MAX);
        Word { bytes, column }
    }

    // The number that the word writes, or the largest where it is more.
    fn value(&self, word: Word<'a>) -> Result<u64, ScriptFault> {
        let mut value = 0u64;
        for (before, byte) in word.bytes.iter().enumerate() {
            if !byte.is_ascii_digit() {
                let column = word.column.saturating_add(before);
                return Err(self.fault(ScriptFaultKind::NoDigit, column));
            }
            value = value
                .saturating_mul(10)
                .saturating_add(u64::from(*byte - b'0'));
        }
        Ok(value)
    }

    // The next number, which has at most 8 bits.
    pub(crate) fn number8(&mut self) -> Result<u8, ScriptFault> {
        let word = self.word()?;
        let value = self.value(word)?;
        match u8::try_from(value) {
            Ok(number) => Ok(number),
            Err(_) => Err(self.fault(ScriptFaultKind::OverField(8), word.column)),
        }
    }

    // The next number, which has at most 16 bits.
    pub(crate) fn number16(&mut self) -> Result<u16, ScriptFault> {
        let word = self.word()?;
        let value = self.value(word)?;
        match u16::try_from(value) {
            Ok(number) => Ok(number),
            Err(_) => Err(self.fault(ScriptFaultKind::OverField(16), word.column)),
        }
    }

    // The next number, which has at most 32 bits.
    pub(crate) fn number32(&mut self) -> Result<u32, ScriptFault> {
        let word = self.word()?;
        let value = self.value(word)?;
        match u32::try_from(value) {
            Ok(number) => Ok(number),
            Err(_) => Err(self.fault(ScriptFaultKind::OverField(32), word.column)),
        }
    }
}
