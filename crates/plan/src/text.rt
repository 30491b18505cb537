// The text of a rule.
ghost use Rattle.std.specs.Prelude.{MatchResult};
ghost use Rattle.plan.specs.Reading.{IsRuleText, TextRefused};

use crate::fault::PlanFault;
use conditions::word::Word;
use rule_text::read::read_rule;

// Tests that the text of the rule with this number is a rule.
pub(crate) fn check_text(number: usize, text: &[u8]) -> Result<(), PlanFault>
    ensures { MatchResult result (λ _. IsRuleText text.now) (TextRefused number text.now) }
{
    read_rule::<Word>(text).map_err(|fault| PlanFault::InText(number, fault))?;
    Ok(())
}
