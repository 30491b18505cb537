// The rows of a table, one after the other.
use crate::explorer::always::holds_always;
use crate::explorer::graph::Graph;
use crate::explorer::positions::PositionSet;
use crate::explorer::settled::{Settled, settle_rounds};
use crate::explorer::until::holds_until;
use std::alloc::AllocError;
use tables::row::Operation;

// What the explorer found of a row.
#[derive(Drop)]
pub struct Found {
    pub operation: Operation,
    // The positions where the row holds.
    pub held: PositionSet,
    pub rounds: usize,
    // Whether the set that the rounds end with is the one that was explored.
    pub agrees: bool,
}

// The rows of a table over the positions of a graph, as many as are worked.
#[derive(Drop)]
pub struct Rows<'a> {
    pub graph: &'a Graph,
    pub found: Vec<Found>,
}

impl<'a> Rows<'a> {
    // Works every row of a table.
    pub fn of(graph: &'a Graph, table: &[Operation]) -> Result<Rows<'a>, AllocError> {
        let mut rows = Rows {
            graph,
            found: Vec::new(graph.heap()),
        };
        for operation in table {
            let found = rows.work(*operation)?;
            rows.found.push(found)?;
        }
        Ok(rows)
    }

    // The positions where a row holds.
    pub fn operand(&self, number: u8) -> &PositionSet {
        match self.found.get(usize::from(number)) {
            Some(row) => &row.held,
            None => self.graph.nowhere(),
        }
    }

    // The positions where the next row holds.
    fn explore(&self, operation: Operation) -> Result<PositionSet, AllocError> {
        let graph = self.graph;
        match operation {
            Operation::Yes => graph.everywhere().clone(),
            Operation::Mark(k) => graph.marked(k),
            Operation::Condition(k) => graph.while_on(k),
            Operation::Not(p) => graph.complement(self.operand(p)),
            Operation::And(p, q) => graph.both(self.operand(p), self.operand(q)),
            Operation::Or(p, q) => graph.either(self.operand(p), self.operand(q)),
            Operation::Next(p) => graph.before(self.operand(p)),
            Operation::Until(p, q) => holds_until(graph, self.operand(p), self.operand(q)),
            Operation::Always(p) => holds_always(graph, self.operand(p)),
        }
    }

    // The rounds of the next row from T(0); absent where it has none.
    //
    // A round of until adds the positions with p that have a step into the set; one of always takes away the positions
    // that have steps but none into it.
    fn settle(&self, operation: Operation) -> Result<Option<Settled>, AllocError> {
        let graph = self.graph;
        let settled = match operation {
            Operation::Until(p, q) => {
                let p = self.operand(p);
                settle_rounds(
                    graph,
                    self.operand(q),
                    |at, set| set.contains(at) || (p.contains(at) && graph.leads_into(at, set)),
                )?
            }
            Operation::Always(p) => settle_rounds(
                graph,
                self.operand(p),
                |at, set| set.contains(at) && (graph.leads_into(at, set) || graph.rests(at)),
            )?,
            _ => return Ok(None),
        };
        Ok(Some(settled))
    }

    // Works the next row, from those before it.
    fn work(&self, operation: Operation) -> Result<Found, AllocError> {
        let held = self.explore(operation)?;
        let (rounds, agrees) = match self.settle(operation)? {
            Some(settled) => (settled.rounds, settled.set == held),
            None => (0, true),
        };
        Ok(Found {
            operation,
            held,
            rounds,
            agrees,
        })
    }
}

// The least position at an entry where the set fails; absent where it holds at every entry.
pub fn failing_entry(graph: &Graph, held: &PositionSet) -> Option<usize> {
    (0..graph.size()).find(|at| graph.has_mark(*at, 0) && !held.contains(*at))
}
