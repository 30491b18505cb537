// Routes that judging shows, compared with what the explorer found.
use crate::explorer::graph::Graph;
use crate::explorer::positions::PositionSet;
use crate::explorer::rows::{Found, Rows};
use crate::explorer::until::hops_to;
use crate::space::Space;
use crate::tally::{Seen, Tally};
use conditions::set::ConditionSet;
use judging::route::route;
use judging::shown::{Ending, RouteStep, Shown};
use routing::network::Network;
use routing::refusal::Refusal;
use std::alloc::AllocError;
use tables::row::{Operation, Row};

// The number of the refusal of a row that does not hold.
const ROW_FAILS: u32 = 26;

// At how many settings of each place a route is asked for.
const SETTINGS: u32 = 3;

// What every record of the steps list is before a route is written to it.
const BLANK: RouteStep = RouteStep {
    place: 0xFFFF,
    setting: 0xFFFF,
};

// At how many settings of a place routes are asked for.
fn samples(graph: &Graph) -> usize {
    SETTINGS.min(graph.settings()) as usize
}

// Position k of those that routes are asked for at: some settings of each place, others for most places.
fn sample(graph: &Graph, k: usize) -> RouteStep {
    RouteStep {
        place: k.checked_div(samples(graph)).unwrap_or(0),
        setting: graph.setting_of(k.saturating_mul(37)),
    }
}

fn number_of(graph: &Graph, at: &RouteStep) -> usize {
    graph.number(at.place, at.setting)
}

// Whether a step leads from one position to another.
fn joined(graph: &Graph, from: &RouteStep, to: &RouteStep) -> bool {
    graph.leads(number_of(graph, from), to.place)
}

// Whether the way starts at a position, comes to none twice, and has a step from each to the next.
fn is_trail(graph: &Graph, start: RouteStep, way: &[RouteStep]) -> bool {
    let mut before = None;
    for (k, at) in way.iter().enumerate() {
        let inside = at.place < graph.places() && at.setting < graph.settings();
        let once = !way.iter().take(k).any(|other| other == at);
        let follows = match before {
            Some(from) => joined(graph, from, at),
            None => *at == start,
        };
        if !(inside && once && follows) {
            return false;
        }
        before = Some(at);
    }
    before.is_some()
}

// Whether a set has each position of a way.
fn has_each(graph: &Graph, set: &PositionSet, way: &[RouteStep]) -> bool {
    way.iter().all(|at| set.contains(number_of(graph, at)))
}

// The kind of the routes of a row; absent where none can be asked for.
fn route_kind(operation: Operation) -> Option<Seen> {
    match operation {
        Operation::Next(_) => Some(Seen::NextRoutes),
        Operation::Until(_, _) => Some(Seen::UntilRoutes),
        Operation::Always(_) => Some(Seen::AlwaysRoutes),
        _ => None,
    }
}

fn ending_kind(ending: Ending) -> Seen {
    match ending {
        Ending::Reaches => Seen::Reaching,
        Ending::Rests => Seen::Resting,
        Ending::Returns(_) => Seen::Returning,
    }
}

// A row that a route is asked for, at a position, by the explorer.
#[derive(Drop)]
struct Query<'a> {
    rows: &'a Rows<'a>,
    found: &'a Found,
    kind: Seen,
    at: RouteStep,
    holds: bool,
    // The fewest hops to q, for p until q where there are some.
    hops: Option<usize>,
}

impl<'a> Query<'a> {
    // What the explorer says of a row at a position.
    fn new(
        rows: &'a Rows<'a>,
        found: &'a Found,
        kind: Seen,
        at: RouteStep,
    ) -> Result<Query<'a>, AllocError> {
        let from = number_of(rows.graph, &at);
        let hops = match found.operation {
            Operation::Until(p, q) => {
                hops_to(rows.graph, rows.operand(p), rows.operand(q), from)?
            }
            _ => None,
        };
        Ok(Query {
            rows,
            found,
            kind,
            at,
            holds: found.held.contains(from),
            hops,
        })
    }

    // Compares an until row with the hops of the walk forwards: there are some where the row holds, and no more
    // than its rounds.
    fn compare_hops(&self, tally: &mut Tally) {
        match self.hops {
            Some(hops) => {
                tally.add(Seen::Hops, 1);
                tally.add_if(Seen::WrongHops, !self.holds || hops > self.found.rounds);
            }
            None => {
                tally.add(Seen::Unreachable, 1);
                tally.add_if(Seen::WrongHops, self.holds);
            }
        }
    }

    // Whether the way and its ending are what the operation of the row wants, from its operands.
    fn is_shown_by(&self, way: &[RouteStep], ending: Ending) -> bool {
        let Some((last, before)) = way.split_last() else {
            return false;
        };
        let rows = self.rows;
        let graph = rows.graph;
        let at = number_of(graph, last);
        match (self.found.operation, ending) {
            (Operation::Next(p), Ending::Reaches) => {
                before.len() == 1 && rows.operand(p).contains(at)
            }
            (Operation::Next(p), Ending::Returns(0)) => {
                before.is_empty() && rows.operand(p).contains(at) && joined(graph, last, last)
            }
            (Operation::Until(p, q), Ending::Reaches) => {
                rows.operand(q).contains(at)
                    && has_each(graph, rows.operand(p), before)
                    && self.hops == Some(before.len())
            }
            (Operation::Always(p), Ending::Rests) => {
                has_each(graph, rows.operand(p), way) && graph.rests(at)
            }
            (Operation::Always(p), Ending::Returns(i)) => {
                has_each(graph, rows.operand(p), way)
                    && way.get(i).is_some_and(|to| joined(graph, last, to))
            }
            _ => false,
        }
    }

    // Counts a shown route by its operation, its ending and its length.
    fn count_route(&self, shown: Shown, tally: &mut Tally) {
        tally.add(self.kind, 1);
        tally.add(ending_kind(shown.ending), 1);
        tally.add_if(Seen::ShortRoutes, shown.count == 1);
        tally.add_if(Seen::LongRoutes, shown.count >= 3);
    }

    // Compares a shown route. The steps list has no room for more than places + 1 positions.
    fn compare_shown(&self, shown: Shown, steps: &[RouteStep], tally: &mut Tally) {
        let right = steps.get(..shown.count).is_some_and(|way| {
            is_trail(self.rows.graph, self.at, way) && self.is_shown_by(way, shown.ending)
        });
        tally.add_if(Seen::WrongRoutes, !right);
        self.count_route(shown, tally);
    }

    // Compares an answer: a route exactly where the row holds, and else the refusal that it fails there; nothing is
    // written behind the route.
    fn compare_answer(
        &self,
        answer: Result<Shown, Refusal>,
        steps: &[RouteStep],
        tally: &mut Tally,
    ) {
        let written = match answer {
            Ok(shown) => {
                self.compare_shown(shown, steps, tally);
                tally.add_if(Seen::WrongAnswers, !self.holds);
                shown.count
            }
            Err(refusal) => {
                let fails = refusal.number() == ROW_FAILS;
                tally.add_if(Seen::RowFails, fails);
                tally.add_if(Seen::WrongAnswers, !fails || self.holds);
                0
            }
        };
        for step in steps.iter().skip(written) {
            tally.add_if(Seen::WrongSteps, *step != BLANK);
        }
    }
}

// Whether a way with its ending shows a row at a position, where the row holds.
pub fn is_shown(
    rows: &Rows,
    row: u8,
    at: RouteStep,
    way: &[RouteStep],
    ending: Ending,
) -> Result<bool, AllocError> {
    let Some(found) = rows.found.get(usize::from(row)) else {
        return Ok(false);
    };
    let Some(kind) = route_kind(found.operation) else {
        return Ok(false);
    };
    let query = Query::new(rows, found, kind, at)?;
    Ok(query.holds && is_trail(rows.graph, at, way) && query.is_shown_by(way, ending))
}

// Asks for routes of each row that says next, until or always, at some settings of each place, and compares the answers.
pub fn compare_routes<N: Network>(
    net: &N,
    table: &[Row],
    rows: &Rows,
    space: &mut Space<N::Set>,
    tally: &mut Tally,
) -> Result<(), AllocError> {
    let graph = rows.graph;
    for (number, found) in rows.found.iter().enumerate() {
        let Some(kind) = route_kind(found.operation) else {
            continue;
        };
        for k in 0..graph.places().saturating_mul(samples(graph)) {
            let at = sample(graph, k);
            let mut steps = vec![in graph.heap(); BLANK; graph.places().saturating_add(1)]?;
            let answer = route(
                net,
                table,
                number,
                at,
                &mut space.main,
                &mut space.spare,
                &mut steps,
            );
            let query = Query::new(&*rows, found, kind, at)?;
            if matches!(found.operation, Operation::Until(_, _)) {
                query.compare_hops(tally);
            }
            query.compare_answer(answer, &steps, tally);
        }
    }
    Ok(())
}
