// The theorems about the grammar and about reading.
ghost use Rattle.rule_text.specs.Claims.{Complete, Decided, Exact, Unambiguous};

// Carries the theorems of this crate that are about no call; it answers nothing of use.
pub fn grammar_stands()
    ensures unambiguous { Unambiguous }
    ensures complete { Complete }
    ensures decided { Decided }
    ensures exact { Exact }
{}
