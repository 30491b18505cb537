// Drawn condition sets.
use crate::generator::random::Random;
use conditions::plain::Plain;
use conditions::set::ConditionSet;
use conditions::word::Word;

pub trait Draw: ConditionSet {
    fn draw(random: &mut Random) -> Self;
}

impl Draw for Plain {
    fn draw(random: &mut Random) -> Plain {
        Plain(!random.one_in(6))
    }
}

impl Draw for Word {
    fn draw(random: &mut Random) -> Word {
        match random.below(9) {
            0 => Word::none(),
            1 => Word::all(),
            2 => on(random),
            3 => on(random).complement(),
            4 => on(random).intersection(&on(random)),
            5 => on(random).union(&on(random)),
            6 => Word(1u64.wrapping_shl((random.word() & 63) as u32)),
            7 => Word(random.word() & random.word()),
            _ => Word(random.word()),
        }
    }
}

// The settings with some condition on.
fn on(random: &mut Random) -> Word {
    let k = (random.word() % 6) as u32;
    Word::with_condition(k).unwrap_or(Word::none())
}
