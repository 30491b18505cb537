// Playing a script.
use crate::script::Script;
use board::call::Answer;
use board::opening::OpeningFault;
use board::play::{Played, play};
use conditions::word::Word;
use judging::shown::RouteStep;
use paper::room::Room;
use report::rule::{MAIN_ROOM, SPARE_ROOM};
use routing::network::{MOST_PLACES, Network};
use std::alloc::Global;

// One step more than places.
const STEPS_ROOM: usize = MOST_PLACES + 1;

/// The lengths of the lists that there are: enough for each call on each board.
pub const WHOLE_ROOM: Room = Room {
    main: MAIN_ROOM,
    spare: SPARE_ROOM,
    steps: STEPS_ROOM,
};

// What stands in the list of steps before a route is written.
const NO_STEP: RouteStep = RouteStep {
    place: 0,
    setting: 0,
};

/// Plays a script on a new board in front of a network, and answers what each call was answered.
pub fn play_script<N: Network<Set = Word>>(
    alloc: Global,
    net: &N,
    script: &Script,
) -> Result<Vec<Answer>, OpeningFault> {
    let mut main = [Word(0); MAIN_ROOM];
    let mut spare = [Word(0); SPARE_ROOM];
    let mut steps = [NO_STEP; STEPS_ROOM];
    let Played { board: _, answers } = play(
        alloc,
        script.number,
        &script.marks,
        net,
        &script.calls,
        &mut main,
        &mut spare,
        &mut steps,
    )?;
    Ok(answers)
}
