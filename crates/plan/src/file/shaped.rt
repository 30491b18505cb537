// A file whose shape is right: what lies outside the texts of its rules has no fault.
ghost use Rattle.std.specs.Prelude.{◌≡◌, ◌≤◌, true, length, Some, None, MatchResult};
ghost use Rattle.std.specs.List.{slice_get};
ghost use Rattle.std.specs.Option.{option_map};
ghost use Rattle.routing.specs.Refusals.{all_inside};
ghost use Rattle.plan.specs.Contents.{place_count, binding_at, binding_count, listed, rule_byte, rule_count, text_at};
ghost use Rattle.plan.specs.Format.{rules_start};
ghost use Rattle.plan.specs.Reading.{Refused, TextsRead};
ghost use Rattle.plan.specs.Shape.{shape_fault};

use crate::fault::{FileFault, PlanFault};
use crate::fields::{text_of, u16_at};
use crate::shape::{CountedFile, binding_byte, check_shape};
use crate::text::check_text;

// Outside the texts of its rules this file has no fault.
#[derive(Clone, Copy)]
pub(crate) struct ShapedFile<'a> {
    pub(crate) counted: CountedFile<'a>,
    ghost shaped: { shape_fault (length counted.bytes.now) counted.bytes.now ≡ None },
    ghost few_places: { counted.places ≤ 256 },
    ghost few_bindings: { counted.bindings ≤ 4096 },
    ghost room: { rules_start counted.places counted.bindings ≤ length counted.bytes.now },
    ghost ends: { all_inside (place_count counted.bytes.now)
        (listed (binding_count counted.bytes.now) (binding_at counted.bytes.now)) ≡ true },
}

impl<'a> ShapedFile<'a> {
    pub(crate) fn open(bytes: &'a [u8]) -> Result<ShapedFile<'a>, FileFault>
        ensures { MatchResult result (λ f. f.counted.bytes.now ≡ bytes.now)
            (λ e. shape_fault (length bytes.now) bytes.now ≡ Some e) }
    {
        let counted = check_shape(bytes, bytes.len())?;
        Ok(ShapedFile { counted })
    }

    // The byte where a rule begins.
    fn rule_byte(&self, rule: usize) -> usize
        requires { rule ≤ rule_count self.now.counted.bytes.now }
        ensures { result ≡ rule_byte self.now.counted.bytes.now rule }
    {
        let mut byte = binding_byte(self.counted.places, self.counted.bindings);
        for earlier in 0..rule {
            byte += 2 + usize::from(u16_at(self.counted.bytes, byte));
        }
        byte
    }

    // The text of a rule; absent beyond the last rule.
    pub(crate) fn text(&self, rule: usize) -> Option<&'a [u8]>
        ensures { option_map (λ t. t.now) result
            ≡ slice_get (listed (rule_count self.now.counted.bytes.now) (text_at self.now.counted.bytes.now)) rule }
    {
        if rule >= self.counted.rules {
            return None;
        }
        Some(text_of(self.counted.bytes, self.rule_byte(rule)))
    }

    // Tests that the texts are rules.
    pub(crate) fn check_texts(&self) -> Result<(), PlanFault>
        ensures { MatchResult result (λ _. TextsRead self.now.counted.bytes.now)
            (λ e. Refused self.now.counted.bytes.now e) }
    {
        let mut byte = binding_byte(self.counted.places, self.counted.bindings);
        for rule in 0..self.counted.rules {
            let text = text_of(self.counted.bytes, byte);
            check_text(rule, text)?;
            byte += 2 + text.len();
        }
        Ok(())
    }
}
