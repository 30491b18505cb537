// The set over no conditions: there is one setting, 0, and it is in or not.
ghost use Rattle.std.specs.Prelude.{◌&&◌, ◌==◌};
ghost use Rattle.std.proofs.Common.{rules};

use crate::set::ConditionSet;

#[derive(Clone, Copy, Debug, PartialEq, Eq)]
pub struct Plain(pub bool);

impl ConditionSet for Plain {
    ghost count = { 0 };

    ghost holds = { λ s a. s.0 && a == 0 };

    ghost few = { Prim.search rules };

    ghost below = { Prim.search rules };

    fn conditions() -> u32 {
        0
    }

    fn all() -> Plain {
        Plain(true)
    }

    fn none() -> Plain {
        Plain(false)
    }

    fn with_condition(k: u32) -> Option<Plain> {
        None
    }

    fn intersection(&self, other: &Plain) -> Plain {
        Plain(self.0 & other.0)
    }

    fn union(&self, other: &Plain) -> Plain {
        Plain(self.0 | other.0)
    }

    fn complement(&self) -> Plain {
        Plain(!self.0)
    }

    fn same_members(&self, other: &Plain) -> bool {
        self.0 == other.0
    }

    fn contains(&self, a: u32) -> bool {
        self.0 & (a == 0)
    }

    fn pick(&self) -> Option<u32> {
        if self.0 { Some(0) } else { None }
    }
}
