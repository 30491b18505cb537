// Some route to q, with p at every position before: backwards from all positions with q, and forwards from one position.
use crate::explorer::graph::Graph;
use crate::explorer::positions::PositionSet;
use std::alloc::AllocError;
use std::collections::VecDeque;

// The positions that a walk backwards came to, and the places among theirs that it has still to go back from.
//
// The same positions have a step to every position of a place, so each place is gone back from once.
#[derive(Drop)]
struct Backwards<'a> {
    graph: &'a Graph,
    seen: PositionSet,
    places: Vec<usize>,
}

impl<'a> Backwards<'a> {
    // Whether the walk has come to a place.
    fn has_seen(&self, place: usize) -> bool {
        let seen = &self.seen;
        self.graph.positions_of(place).any(|at| seen.contains(at))
    }

    // Adds a position, and its place if the walk has not come to the place before.
    fn add(&mut self, position: usize) -> Result<(), AllocError> {
        let place = self.graph.place_of(position);
        if !self.has_seen(place) {
            self.places.push(place)?;
        }
        self.seen.insert(position);
        Ok(())
    }
}

// The positions from which some route has a position with q, and p at each position before it.
pub fn holds_until(
    graph: &Graph,
    p: &PositionSet,
    q: &PositionSet,
) -> Result<PositionSet, AllocError> {
    let mut walk = Backwards {
        graph,
        seen: graph.nowhere().clone()?,
        places: Vec::new(graph.heap()),
    };
    for position in 0..graph.size() {
        if q.contains(position) {
            walk.add(position)?;
        }
    }
    for _ in 0..graph.places() {
        let Some(place) = walk.places.pop() else {
            break;
        };
        for from in 0..graph.size() {
            if p.contains(from) && graph.leads(from, place) {
                walk.add(from)?;
            }
        }
    }
    Ok(walk.seen)
}

// A position that a walk came to, and the hops between its start and there.
#[derive(Clone, Copy)]
struct Reached {
    position: usize,
    hops: usize,
}

// The positions that a walk forwards came to, each once, and those of them that it has still to go on from, in the order
// of coming.
#[derive(Drop)]
struct Forwards<'a> {
    graph: &'a Graph,
    seen: PositionSet,
    queue: VecDeque<Reached>,
}

impl<'a> Forwards<'a> {
    // Adds a position, if the walk has not come to it before.
    fn add(&mut self, position: usize, hops: usize) -> Result<(), AllocError> {
        if !self.seen.contains(position) {
            self.seen.insert(position);
            self.queue.push_back(Reached { position, hops })?;
        }
        Ok(())
    }

    // Adds the successors of a position.
    fn add_after(&mut self, from: Reached) -> Result<(), AllocError> {
        for place in 0..self.graph.places() {
            if self.graph.leads(from.position, place) {
                for to in self.graph.positions_of(place) {
                    self.add(to, from.hops.saturating_add(1))?;
                }
            }
        }
        Ok(())
    }
}

// The fewest hops from a position to one with q, with p at every position before it; absent where no route is one.
pub fn hops_to(
    graph: &Graph,
    p: &PositionSet,
    q: &PositionSet,
    start: usize,
) -> Result<Option<usize>, AllocError> {
    let mut walk = Forwards {
        graph,
        seen: graph.nowhere().clone()?,
        queue: VecDeque::new(graph.heap()),
    };
    walk.add(start, 0)?;
    for _ in 0..graph.size() {
        let Some(from) = walk.queue.pop_front() else {
            break;
        };
        if q.contains(from.position) {
            return Ok(Some(from.hops));
        }
        if p.contains(from.position) {
            walk.add_after(from)?;
        }
    }
    Ok(None)
}
