// The set over six conditions: one word of 64 bits, bit a for setting a.
ghost use Rattle.conditions.specs.WordSets.{word_holds};
ghost use Rattle.std.proofs.Common.{rules};

use crate::set::ConditionSet;

#[derive(Clone, Copy, Debug, PartialEq, Eq)]
pub struct Word(pub u64);

impl ConditionSet for Word {
    ghost count = { 6 };

    ghost holds = { word_holds };

    ghost few = { Prim.search rules };

    ghost below = { Prim.search rules };

    fn conditions() -> u32 {
        6
    }

    fn all() -> Word {
        Word(0xFFFF_FFFF_FFFF_FFFF)
    }

    fn none() -> Word {
        Word(0)
    }

    fn with_condition(k: u32) -> Option<Word> {
        match k {
            0 => Some(Word(0xAAAA_AAAA_AAAA_AAAA)),
            1 => Some(Word(0xCCCC_CCCC_CCCC_CCCC)),
            2 => Some(Word(0xF0F0_F0F0_F0F0_F0F0)),
            3 => Some(Word(0xFF00_FF00_FF00_FF00)),
            4 => Some(Word(0xFFFF_0000_FFFF_0000)),
            5 => Some(Word(0xFFFF_FFFF_0000_0000)),
            _ => None,
        }
    }

    fn intersection(&self, other: &Word) -> Word {
        Word(self.0 & other.0)
    }

    fn union(&self, other: &Word) -> Word {
        Word(self.0 | other.0)
    }

    fn complement(&self) -> Word {
        Word(!self.0)
    }

    fn same_members(&self, other: &Word) -> bool {
        self.0 == other.0
    }

    fn contains(&self, a: u32) -> bool {
        a < 64 && self.0 >> a & 1 == 1
    }

    fn pick(&self) -> Option<u32> {
        if self.0 == 0 {
            None
        } else {
            Some(self.0.trailing_zeros())
        }
    }
}
