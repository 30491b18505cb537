// Some route that keeps to a set: depth first, to a position that rests, that is on a cycle, or that is in a set of ends.
use crate::explorer::graph::Graph;
use crate::explorer::positions::PositionSet;
use std::alloc::AllocError;

#[derive(Clone, Copy)]
enum State {
    // Not come to.
    New,
    // On the way from where the walk started to where it is.
    Open,
    // A route begins here that keeps to the set, or keeps to it until it comes to an end.
    Kept,
    // Every route from here leaves the set.
    Lost,
}

#[derive(Drop)]
struct Walk<'a> {
    graph: &'a Graph,
    p: &'a PositionSet,
    ends: &'a PositionSet,
    states: Vec<State>,
}

impl<'a> Walk<'a> {
    fn state(&self, position: usize) -> State {
        self.states.get(position).copied().unwrap_or(State::Lost)
    }

    fn is_new(&self, position: usize) -> bool {
        matches!(self.state(position), State::New)
    }

    fn set_state(&mut self, position: usize, state: State) {
        if let Some(slot) = self.states.get_mut(position) {
            *slot = state;
        }
    }

    // Whether a route that is kept begins at an open position, none of whose successors with p is new.
    //
    // A successor that is open closes a cycle.
    fn is_kept(&self, at: usize) -> bool {
        let goes_on = |to: usize| matches!(self.state(to), State::Open | State::Kept);
        self.graph.rests(at) || self.ends.contains(at) || self.graph.leads_to(at, goes_on)
    }

    // Looks at the successors of an open position: settles its state, or answers a new one that has to be settled first.
    fn look(&mut self, at: usize) -> Option<usize> {
        let new = self
            .graph
            .successor_where(at, |to| self.p.contains(to) && self.is_new(to));
        if new.is_none() {
            let state = if self.is_kept(at) {
                State::Kept
            } else {
                State::Lost
            };
            self.set_state(at, state);
        }
        new
    }

    // Settles the state of a new position, and of those that it comes to on the way.
    fn settle(&mut self, start: usize) -> Result<(), AllocError> {
        let mut way = vec![in self.graph.heap(); start]?;
        self.set_state(start, State::Open);
        // Each position is opened once and settled once.
        for _ in 0..self.graph.size().saturating_mul(2) {
            let Some(at) = way.last().copied() else {
                break;
            };
            match self.look(at) {
                Some(to) => {
                    self.set_state(to, State::Open);
                    way.push(to)?;
                }
                None => {
                    way.pop();
                }
            }
        }
        Ok(())
    }
}

// The positions from which some route has p at each of its positions, or up to one of the ends.
fn keeps(graph: &Graph, p: &PositionSet, ends: &PositionSet) -> Result<PositionSet, AllocError> {
    let states = vec![in graph.heap(); State::New; graph.size()]?;
    let mut walk = Walk {
        graph,
        p,
        ends,
        states,
    };
    for start in 0..graph.size() {
        if p.contains(start) && walk.is_new(start) {
            walk.settle(start)?;
        }
    }
    graph.positions_where(|at| matches!(walk.state(at), State::Kept))
}

// The positions from which some route has p at each of its positions.
pub fn holds_always(graph: &Graph, p: &PositionSet) -> Result<PositionSet, AllocError> {
    keeps(graph, p, graph.nowhere())
}

// The positions from which some route breaks p until q: q never comes on it, or p is missing before q comes.
pub fn breaks_until(
    graph: &Graph,
    p: &PositionSet,
    q: &PositionSet,
) -> Result<PositionSet, AllocError> {
    let waiting = graph.complement(q)?;
    let either = graph.either(p, q)?;
    let missing = graph.complement(&either)?;
    keeps(graph, &waiting, &missing)
}
