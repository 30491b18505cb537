// The rules of a plan: their texts and tables.
ghost use Rattle.std.specs.Prelude.{◌≡◌, ◌≤◌, length, MatchOption};
ghost use Rattle.std.specs.List.{slice_get};
ghost use Rattle.std.specs.Option.{option_map};
ghost use Rattle.plan.specs.Files.{file_plan, shaped_text, TableOf};

use crate::file::PlanFile;
use crate::file::shaped::ShapedFile;
use conditions::word::Word;
use rule_text::read::read_rule;
use rule_text::table::Table;

// The most rules of a plan.
pub const MOST_RULES: usize = 8;

impl<'a> PlanFile<'a> {
    // The number of rules.
    pub fn rules(&self) -> usize
        ensures { result ≡ length (file_plan self.now).texts }
    {
        self.file.counted.rules
    }

    // The text of a rule; absent beyond the last rule.
    pub fn text(&self, rule: usize) -> Option<&'a [u8]>
        ensures { option_map (λ t. t.now) result ≡ slice_get (file_plan self.now).texts rule }
    {
        self.file.text(rule)
    }

    // The table of a rule; absent beyond the last rule.
    pub fn table(&self, rule: usize) -> Option<Table>
        ensures { MatchOption result (length (file_plan self.now).texts ≤ rule)
            (TableOf (file_plan self.now) rule) }
    {
        let text = self.text(rule)?;
        Some(read_rule::<Word>(text).unwrap())
    }
}

// The text of a rule of a file whose shape is right, also where the plan is refused for a text. Absent where the shape
// is wrong, and beyond the last rule.
pub fn rule_text(file: &[u8], rule: usize) -> Option<&[u8]>
    ensures { option_map (λ t. t.now) result ≡ shaped_text file.now rule }
{
    let shaped = ShapedFile::open(file).ok()?;
    shaped.text(rule)
}
