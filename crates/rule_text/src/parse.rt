// Reading a rule: choice, both and one call each other, as whole rules hold parts and parts hold
// whole rules.
use crate::emit::{close_prefix, close_until, emit, open_prefix};
use crate::fault::Fault;
use crate::reader::Reader;
use crate::table::Table;
use crate::word::{Start, Word};
use tables::row::Operation;

// What is left of a text, and the table that is made of it.
#[derive(Drop)]
pub(crate) struct Parser<'a> {
    pub(crate) reader: Reader<'a>,
    // Absent once there were more than 32 rows.
    pub(crate) table: Option<Table>,
}

impl Parser<'_> {
    ghost use Rattle.rule_text.specs.Descent.{BothRead, ChoiceRead, OneRead, Onward};

    // A part: a word, a prefix with its part, a rule in brackets, or an until.
    // Answers the number of its last row.
    #[cycle(both_choice_one)]
    fn one(&mut self, levels: u32) -> Result<u8, Fault>
        ensures on { Onward self.old.reader self.new.reader }
        ensures reads { OneRead levels self.old self.new result }
    {
        let Some(word) = self.reader.word else {
            return Err(self.reader.unfit());
        };
        let Some(start) = word.start() else {
            return Err(self.reader.unfit());
        };
        self.reader.enter(levels)?;
        match start {
            Start::Atom(operation) => Ok(emit(&mut self.table, operation)),
            Start::Prefix(prefix) => {
                let first = open_prefix(&mut self.table, prefix);
                let part = self.one(levels - 1)?;
                Ok(close_prefix(&mut self.table, prefix, first, part))
            }
            Start::Bracket => {
                let whole = self.choice(levels - 1)?;
                self.reader.take(Word::Close)?;
                Ok(whole)
            }
            Start::Quantifier(quantifier) => {
                self.reader.take(Word::OpenSquare)?;
                let p = self.choice(levels - 1)?;
                self.reader.take(Word::Until)?;
                let q = self.choice(levels - 1)?;
                self.reader.take(Word::CloseSquare)?;
                Ok(close_until(&mut self.table, quantifier, p, q))
            }
        }
    }

    // Parts joined by `&`.
    #[cycle(both_choice_one)]
    fn both(&mut self, levels: u32) -> Result<u8, Fault>
        ensures on { Onward self.old.reader self.new.reader }
        ensures reads { BothRead levels self.old self.new result }
    {
        let mut left = self.one(levels)?;
        while self.reader.has(Word::And) {
            self.reader.advance()?;
            let right = self.one(levels)?;
            left = emit(&mut self.table, Operation::And(left, right));
        }
        Ok(left)
    }

    // A whole rule: what `&` joins, joined by `|`.
    #[cycle(both_choice_one)]
    pub(crate) fn choice(&mut self, levels: u32) -> Result<u8, Fault>
        ensures on { Onward self.old.reader self.new.reader }
        ensures reads { ChoiceRead levels self.old self.new result }
    {
        let mut left = self.both(levels)?;
        while self.reader.has(Word::Or) {
            self.reader.advance()?;
            let right = self.both(levels)?;
            left = emit(&mut self.table, Operation::Or(left, right));
        }
        Ok(left)
    }
}
