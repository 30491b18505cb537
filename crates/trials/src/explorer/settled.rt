// The rounds of a row, by their definition: the least i with T(i+1) = T(i).
use crate::explorer::graph::Graph;
use crate::explorer::positions::PositionSet;
use std::alloc::AllocError;

// The rounds, and the set that no longer changes.
#[derive(Drop)]
pub struct Settled {
    pub rounds: usize,
    pub set: PositionSet,
}

// The rounds from T(0), where `step` says of a position and T(i) whether the position is in T(i+1).
pub fn settle_rounds<F: Fn(usize, &PositionSet) -> bool>(
    graph: &Graph,
    start: &PositionSet,
    step: F,
) -> Result<Settled, AllocError>
    requires { F.IsAlwaysCallable step }
{
    let mut set = start.clone()?;
    for rounds in 0..graph.size() {
        let next = graph.positions_where(|at| step(at, &set))?;
        if next == set {
            return Ok(Settled { rounds, set });
        }
        set = next;
    }
    Ok(Settled {
        rounds: graph.size(),
        set,
    })
}
