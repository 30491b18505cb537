// Reading a rule from its text.
ghost use Rattle.std.specs.Prelude.{◌≡◌, ◌≤◌, true, IfOk, Ok};
ghost use Rattle.routing.specs.Rules.{Rule};
ghost use Rattle.tables.specs.Tables.{accepted};
ghost use Rattle.rule_text.specs.Reading.{Answer, Reading, StandsFor, table_rows};

use crate::fault::{Fault, FaultKind};
use crate::parse::Parser;
use crate::reader::Reader;
use crate::table::Table;
use conditions::set::ConditionSet;

// The most bytes of a text.
pub const MOST_BYTES: usize = 200;

const MOST_LEVELS: u32 = 32;

// The table of the rule that the text is, for so many conditions, or its fault.
fn read_table(text: &[u8], conditions: u32) -> Result<Table, Fault>
    requires { conditions ≤ 16 }
    ensures { Answer conditions text.now result }
{
    if text.len() > MOST_BYTES {
        return Err(Fault {
            kind: FaultKind::TooLong,
            byte: MOST_BYTES,
        });
    }
    let mut reader = Reader::new(text, conditions);
    reader.advance()?;
    let mut parser = Parser {
        reader,
        table: Some(Table::new()),
    };
    parser.choice(MOST_LEVELS)?;
    if parser.reader.word.is_some() {
        return Err(parser.reader.unfit());
    }
    parser.table.ok_or(Fault {
        kind: FaultKind::TooManyRows,
        byte: text.len(),
    })
}

// The table of the rule that the text is, for a condition set, or its fault.
pub fn read_rule<S: ConditionSet>(text: &[u8]) -> Result<Table, Fault>
    ensures answer { Answer S.ConditionSet.count text.now result }
    ensures means { IfOk result
        (λ t. (f : Rule) → Reading S.ConditionSet.count text.now (Ok f)
        → StandsFor (table_rows t) f) }
    ensures accepted { IfOk result (λ t. accepted S.ConditionSet.count (table_rows t) ≡ true) }
{
    read_table(text, S::conditions())
}
