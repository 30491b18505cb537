// Where the reading of a text stands.
ghost use Rattle.std.specs.Prelude.{◌≡◌, ◌<◌, ◌≤◌, ◌↔◌, length, None, Some, IsTrue, MatchResult, ◌≢◌};
ghost use Rattle.rule_text.specs.Faults.{fault};
ghost use Rattle.rule_text.specs.declared.fault.FaultKind.TheVariants.{CannotFollow};

use crate::fault::{Fault, FaultKind};
use crate::spell::read_word;
use crate::split::{skip_spaces, word_end};
use crate::word::Word;

#[derive(Drop)]
pub(crate) struct Reader<'a> {
    text: &'a [u8],
    conditions: u32,
    // The word in hand, absent at the end, and its first byte, or the text's length.
    pub(crate) word: Option<Word>,
    start: usize,
    // The first byte behind it.
    next: usize,
    ghost within: { next ≤ length text.now },
    ghost ended: { word ≡ None → start ≡ length text.now },
    ghost ahead: { (word ≢ None) → start < next },
    ghost limited: { conditions ≤ 16 },
}

impl<'a> Reader<'a> {
    ghost use Rattle.rule_text.specs.Descent.{Enters, Fails, Onward, Stepped, Takes};

    // A reader before the first word.
    pub(crate) fn new(text: &'a [u8], conditions: u32) -> Reader<'a>
        requires { conditions ≤ 16 }
        ensures text { result.text.now ≡ text.now }
        ensures conditions { result.conditions ≡ conditions }
        ensures next { result.next ≡ 0 }
    {
        Reader {
            text,
            conditions,
            word: None,
            start: text.len(),
            next: 0,
        }
    }

    // Takes the next word in hand.
    pub(crate) fn advance(&mut self) -> Result<(), Fault>
        ensures on { Onward self.old self.new }
        ensures step { MatchResult result (λ _. Stepped self.old self.new) (Fails self.old) }
    {
        let start = skip_spaces(self.text, self.next);
        if start == self.text.len() {
            self.start = start;
            self.word = None;
            self.next = start;
            return Ok(());
        }
        let end = word_end(self.text, start);
        let word = read_word(&self.text[start..end], self.conditions).map_err(|kind| Fault {
            kind,
            byte: start,
        })?;
        self.start = start;
        self.word = Some(word);
        self.next = end;
        Ok(())
    }

    // The fault of a word in hand that cannot follow, or of an unfinished end.
    pub(crate) fn unfit(&self) -> Fault
        ensures { result ≡ fault CannotFollow self.now.start }
    {
        Fault {
            kind: FaultKind::CannotFollow,
            byte: self.start,
        }
    }

    // Whether the word in hand is this one.
    pub(crate) fn has(&self, word: Word) -> bool
        ensures { IsTrue result ↔ (self.now.word ≡ Some word) }
    {
        self.word == Some(word)
    }

    // Goes past the word, which has to be the one in hand.
    pub(crate) fn take(&mut self, word: Word) -> Result<(), Fault>
        ensures on { Onward self.old self.new }
        ensures takes { Takes word self.old self.new result }
    {
        if self.has(word) {
            self.advance()
        } else {
            Err(self.unfit())
        }
    }

    // Goes past the word in hand, which opens or fills a level.
    pub(crate) fn enter(&mut self, levels: u32) -> Result<(), Fault>
        ensures on { Onward self.old self.new }
        ensures enters { Enters levels self.old self.new result }
    {
        if levels == 0 {
            return Err(Fault {
                kind: FaultKind::TooDeep,
                byte: self.start,
            });
        }
        self.advance()
    }
}
