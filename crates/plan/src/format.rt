// The theorems about the format.
ghost use Rattle.plan.specs.Claims.{Decided, OneAnswer, OneFile, ReadBack, WriteBack};

// Carries the theorems of this crate that are about no call; it answers nothing of use.
pub fn format_stands()
    ensures decided { Decided }
    ensures one_answer { OneAnswer }
    ensures read_back { ReadBack }
    ensures write_back { WriteBack }
    ensures one_file { OneFile }
{}
