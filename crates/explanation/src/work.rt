// Room to judge the rules of a plan in, and to show routes.
use crate::breaking::{BreakingRoute, is_of_step};
use conditions::word::Word;
use judging::breaking::{BreakingForm, breaking_form, show_breaking};
use judging::shown::RouteStep;
use report::rule::{MAIN_ROOM, SPARE_ROOM};
use routing::network::{MOST_PLACES, Network};
use routing::refusal::Refusal;
use tables::row::Row;
use verdicts::entries::judge_entries;
use verdicts::verdict::Judgement;

// One step more than places.
const STEPS_ROOM: usize = MOST_PLACES + 1;

// What stands in the list of steps before a route is written.
const NO_STEP: RouteStep = RouteStep {
    place: 0,
    setting: 0,
};

#[derive(Drop)]
pub(crate) struct Work {
    main: [Word; MAIN_ROOM],
    spare: [Word; SPARE_ROOM],
    steps: [RouteStep; STEPS_ROOM],
}

impl Work {
    pub(crate) fn new() -> Work {
        Work {
            main: [Word(0); MAIN_ROOM],
            spare: [Word(0); SPARE_ROOM],
            steps: [NO_STEP; STEPS_ROOM],
        }
    }

    // Judges a rule at the entries of a network.
    pub(crate) fn judge<N: Network<Set = Word>>(
        &mut self,
        net: &N,
        rows: &[Row],
    ) -> Result<Judgement, Refusal> {
        judge_entries(net, rows, &mut self.main, &mut self.spare)
    }

    // A route that shows why a rule breaks at a position; absent where no single route shows it.
    pub(crate) fn breaking_route<N: Network<Set = Word>>(
        &mut self,
        net: &N,
        rows: &[Row],
        at: RouteStep,
    ) -> Option<BreakingRoute<'_>> {
        // The form alone tells it, so that nothing is judged for a route that there is not.
        if breaking_form(rows) == BreakingForm::Other {
            return None;
        }
        let Work { main, spare, steps } = self;
        let shown = show_breaking(net, rows, at, main, spare, steps)
            .ok()??
            .shown;
        Some(BreakingRoute {
            steps: self.steps.get(..shown.count)?,
            ending: shown.ending,
            is_of_step: is_of_step(rows),
        })
    }
}
