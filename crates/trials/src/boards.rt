// Plays drawn lists of calls on drawn boards, and compares every answer and the boards that are left with a second board,
// whose rules the explorer judges.

mod answers;
mod calls;
mod judged;
mod limits;
mod lists;
mod refused;
mod rules;
mod second;
mod sets;
mod tally;
mod world;

use crate::boards::limits::try_limits;
use crate::boards::sets::Build;
use crate::boards::world::Worlds;
use anyhow::ensure;
use conditions::plain::Plain;
use conditions::word::Word;
use std::alloc::AllocError;

const SEED: u64 = 1_618_033_988;

const PLAIN_WORLDS: usize = 64;

const WORD_WORLDS: usize = 32;

fn try_worlds<S: Build>(worlds: &mut Worlds, count: usize) -> Result<(), AllocError> {
    for _ in 0..count {
        worlds.try_sites::<S>()?;
        worlds.try_nothing::<S>()?;
    }
    Ok(())
}

// Tries all boards.
pub fn try_boards(rt: &(impl AllocGlobal + Print)) -> anyhow::Result<()> {
    let mut worlds = Worlds::new(rt.alloc(), SEED);
    try_worlds::<Plain>(&mut worlds, PLAIN_WORLDS)?;
    try_worlds::<Word>(&mut worlds, WORD_WORLDS)?;
    try_limits(rt.alloc(), &mut worlds.tally)?;
    worlds.tally.print(rt)?;
    ensure!(!worlds.tally.untried(), "something was not tried on boards");
    ensure!(
        !worlds.tally.differs(),
        "boards and the second board differ"
    );
    Ok(())
}
