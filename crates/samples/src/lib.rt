// The trial networks P and L, with their rules as tables.
#![tactic(auto)]

ghost use Rattle.samples.specs.Worked.{WorkedCases};

pub mod networks;

// Carries the worked cases as one theorem; it answers nothing.
pub fn worked_cases()
    ensures { WorkedCases }
{}
