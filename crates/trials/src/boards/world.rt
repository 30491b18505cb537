// Drawn boards over drawn far networks, and boards over those.
use crate::boards::answers::compare_answers;
use crate::boards::calls::{Outcome, Plan, Style, draw_plan};
use crate::boards::lists::{Lists, draw_lists, draw_marks, is_network};
use crate::boards::second::{Expected, Second};
use crate::boards::sets::Build;
use crate::boards::tally::{BoardTally, Seen};
use crate::generator::random::Random;
use board::board::Board;
use board::call::Answer;
use board::play::{Played, play};
use judging::shown::RouteStep;
use paper::room::Room;
use routing::empty::Empty;
use routing::network::Network;
use routing::site::SiteTable;
use std::alloc::{AllocError, Global};

// How long the lists are that calls are lent: for 32 rows at 70 places.
const THERE: Room = Room {
    main: 2240,
    spare: 140,
    steps: 71,
};

const BLANK: RouteStep = RouteStep {
    place: 0,
    setting: 0,
};

// The board that calls leave, and its network as lists.
type Left<S, F> = Option<(Board<F>, Lists<S>)>;

// Compares the board after a call.
fn compare_board<S: Build, F: Network>(
    board: &Board<F>,
    second: &Second<S>,
    outcome: &Outcome<S>,
    tally: &mut BoardTally,
) {
    tally.add_if(
        Seen::WrongNetworks,
        !is_network(board, second, &outcome.own),
    );
    tally.add_if(Seen::WrongOpen, board.open_proposals() != outcome.open);
}

#[derive(Drop)]
pub struct Worlds {
    pub heap: Global,
    pub random: Random,
    pub tally: BoardTally,
    // Whether the far networks are boards.
    over: bool,
}

// The most own places, and the most places of a drawn far network: few, so that the explorer is quick.
fn most_places<S: Build>() -> usize {
    if S::conditions() == 0 { 3 } else { 2 }
}

// How many own places a board gets; over plain sets at times up to 64.
fn draw_own<S: Build>(random: &mut Random, style: Style) -> usize {
    if S::conditions() == 0 && random.one_in(24) {
        return random.below(65);
    }
    let none = random.one_in(12);
    match style {
        Style::Filling => 1,
        _ if none => 0,
        _ => random.below(most_places::<S>()).saturating_add(1),
    }
}

fn draw_style(random: &mut Random) -> Style {
    match random.below(32) {
        0 => Style::Filling,
        1..=3 => Style::Adopting,
        _ => Style::Usual,
    }
}

impl Worlds {
    pub fn new(heap: Global, seed: u64) -> Worlds {
        Worlds {
            heap,
            random: Random::new(seed),
            tally: BoardTally::new(),
            over: false,
        }
    }

    // Compares what calls were answered.
    fn compare<S: Build>(
        &mut self,
        plan: &Plan<S>,
        answers: &[Answer],
        places: usize,
    ) -> Result<(), AllocError> {
        for outcome in &plan.outcomes {
            let down = matches!(outcome.expected, Expected::TurnedDown(_));
            self.tally.add_if(Seen::OverBoardsDown, self.over && down);
        }
        compare_answers(self.heap, plan, answers, places, &mut self.tally)
    }

    // Plays a drawn list of calls on a new board.
    fn play_board<S: Build, F: Network<Set = S> + Drop>(
        &mut self,
        own: &[u32],
        far: F,
        second: &mut Second<S>,
        style: Style,
    ) -> Result<Option<Board<F>>, AllocError> {
        let heap = self.heap;
        let plan = draw_plan(&mut self.random, second, style)?;
        let mut main = vec![in heap; S::none(); THERE.main]?;
        let mut spare = vec![in heap; S::none(); THERE.spare]?;
        let mut steps = vec![in heap; BLANK; THERE.steps]?;
        let calls = &plan.calls;
        let played = play(
            heap,
            second.number,
            own,
            far,
            calls,
            &mut main,
            &mut spare,
            &mut steps,
        );
        let Ok(Played { board, answers }) = played else {
            return Ok(None);
        };
        self.compare(&plan, &answers, own.len())?;
        if let Some(outcome) = plan.outcomes.last() {
            compare_board(&board, second, outcome, &mut self.tally);
        }
        Ok(Some(board))
    }

    // Makes drawn calls on a new board, and compares.
    fn try_board<S: Build, F: Network<Set = S> + Drop>(
        &mut self,
        far: F,
        lists: &Lists<S>,
    ) -> Result<Left<S, F>, AllocError> {
        let style = draw_style(&mut self.random);
        let places = draw_own::<S>(&mut self.random, style);
        let own = draw_marks(self.heap, &mut self.random, places)?;
        let number = (self.random.word() & 0xFFFF_FFFF) as u32;
        let mut second = Second::open(self.heap, number, &own, lists, THERE)?;
        self.count_board::<S>(places);
        let Some(board) = self.play_board(&own, far, &mut second, style)? else {
            self.tally.add(Seen::Faults);
            return Ok(None);
        };
        let net = second.net(&second.own)?;
        Ok(Some((board, net)))
    }

    // Counts a board by its sets and its own places.
    fn count_board<S: Build>(&mut self, places: usize) {
        let plain = S::conditions() == 0;
        self.tally.add(if plain {
            Seen::PlainBoards
        } else {
            Seen::WordBoards
        });
        self.tally.add_if(Seen::NoOwnPlaces, places == 0);
        self.tally.add_if(Seen::ManyOwnPlaces, places > 8);
    }

    // Tries boards over a board.
    fn try_over<S: Build, F: Network<Set = S> + Drop>(
        &mut self,
        left: &Left<S, F>,
    ) -> Result<(), AllocError> {
        if let Some((board, lists)) = left {
            self.tally.add(Seen::OverBoards);
            self.over = true;
            let _ = self.try_board(board, lists)?;
            self.over = false;
        }
        Ok(())
    }

    // Tries a board over a drawn site table, and one over that board.
    pub fn try_sites<S: Build>(&mut self) -> Result<(), AllocError> {
        let lists = draw_lists::<S>(self.heap, &mut self.random, most_places::<S>())?;
        let Ok(site) = SiteTable::open(&lists.marks, &lists.bindings) else {
            self.tally.add(Seen::Faults);
            return Ok(());
        };
        self.tally.add(Seen::OverSites);
        let left = self.try_board(site, &lists)?;
        self.try_over(&left)
    }

    // Tries a board over the network with no places, and one over that board.
    pub fn try_nothing<S: Build>(&mut self) -> Result<(), AllocError> {
        let lists = Lists {
            marks: Vec::new(self.heap),
            bindings: Vec::new(self.heap),
        };
        self.tally.add(Seen::OverNothing);
        let far: Empty<S> = Empty::default();
        let left = self.try_board(far, &lists)?;
        self.try_over(&left)
    }
}
