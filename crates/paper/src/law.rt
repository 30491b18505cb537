// What holds of every run of calls.
ghost use Rattle.paper.specs.Claims.{EveryRunLawful, HistoryTells, NeverBoth, OneRun, SomeRun};

/// Carries the theorems of this crate; it answers nothing of use.
pub fn law_stands()
    ensures lawful { EveryRunLawful }
    ensures told { HistoryTells }
    ensures one { OneRun }
    ensures some { SomeRun }
    ensures either { NeverBoth }
{}
