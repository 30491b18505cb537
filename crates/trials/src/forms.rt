// The forms of a rule, each from its own definition; an A form by a route or a step that breaks it.
use crate::explorer::always::{breaks_until, holds_always};
use crate::explorer::graph::Graph;
use crate::explorer::positions::PositionSet;
use crate::explorer::until::holds_until;
use crate::generator::text::{Form, Join, Leaf, Prefix, Spelled};
use std::alloc::AllocError;

// The positions from which no step leads to one without p.
fn every_next(graph: &Graph, p: &PositionSet) -> Result<PositionSet, AllocError> {
    let without = graph.complement(p)?;
    let broken = graph.before(&without)?;
    graph.complement(&broken)
}

// The positions from which no route comes to one without p.
fn every_always(graph: &Graph, p: &PositionSet) -> Result<PositionSet, AllocError> {
    let without = graph.complement(p)?;
    let broken = holds_until(graph, graph.everywhere(), &without)?;
    graph.complement(&broken)
}

// The positions from which no route breaks p until q.
fn every_until(graph: &Graph, p: &PositionSet, q: &PositionSet) -> Result<PositionSet, AllocError> {
    let broken = breaks_until(graph, p, q)?;
    graph.complement(&broken)
}

// The positions where a form without parts holds.
fn work_leaf(graph: &Graph, leaf: Leaf) -> Result<PositionSet, AllocError> {
    match leaf {
        Leaf::Yes => graph.everywhere().clone(),
        Leaf::Mark(k) => graph.marked(k),
        Leaf::Condition(k) => graph.while_on(k),
    }
}

// The positions where a form of one part holds, from those of the part.
fn work_one(graph: &Graph, prefix: Prefix, p: &PositionSet) -> Result<PositionSet, AllocError> {
    match prefix {
        Prefix::Not => graph.complement(p),
        Prefix::SomeNext => graph.before(p),
        Prefix::SomeFuture => holds_until(graph, graph.everywhere(), p),
        Prefix::SomeAlways => holds_always(graph, p),
        Prefix::EveryNext => every_next(graph, p),
        Prefix::EveryFuture => every_until(graph, graph.everywhere(), p),
        Prefix::EveryAlways => every_always(graph, p),
    }
}

// The positions where a form of two parts holds, from those of the parts.
fn work_two(
    graph: &Graph,
    join: Join,
    p: &PositionSet,
    q: &PositionSet,
) -> Result<PositionSet, AllocError> {
    match join {
        Join::And => graph.both(p, q),
        Join::Or => graph.either(p, q),
        Join::SomeUntil => holds_until(graph, p, q),
        Join::EveryUntil => every_until(graph, p, q),
    }
}

// The positions where a form holds, from those of the earlier forms.
fn work_form(graph: &Graph, done: &[PositionSet], form: Form) -> Result<PositionSet, AllocError> {
    let part = |number: usize| done.get(number).unwrap_or(graph.nowhere());
    match form {
        Form::Leaf(leaf) => work_leaf(graph, leaf),
        Form::One(prefix, p) => work_one(graph, prefix, part(p)),
        Form::Two(join, p, q) => work_two(graph, join, part(p), part(q)),
    }
}

// The positions where each form of a rule holds.
pub fn work_forms(graph: &Graph, forms: &[Spelled]) -> Result<Vec<PositionSet>, AllocError> {
    let mut done = Vec::new(graph.heap());
    for spelled in forms {
        let positions = work_form(graph, &done, spelled.form)?;
        done.push(positions)?;
    }
    Ok(done)
}
