// Sets of positions.
use std::alloc::{AllocError, Global};

// A set of positions by their numbers: a truth value for each.
#[derive(Clone, PartialEq, Eq, Drop)]
pub struct PositionSet {
    members: Vec<bool>,
}

impl PositionSet {
    // All positions below `size`, or none of them.
    pub fn filled(heap: Global, size: usize, with: bool) -> Result<PositionSet, AllocError> {
        let members = vec![in heap; with; size]?;
        Ok(PositionSet { members })
    }

    // The positions below `size` that pass a test.
    pub fn of<F: Fn(usize) -> bool>(
        heap: Global,
        size: usize,
        test: F,
    ) -> Result<PositionSet, AllocError>
        requires { F.IsAlwaysCallable test }
    {
        let mut set = PositionSet::filled(heap, size, false)?;
        for position in 0..size {
            if test(position) {
                set.insert(position);
            }
        }
        Ok(set)
    }

    pub fn contains(&self, position: usize) -> bool {
        self.members.get(position).copied().unwrap_or(false)
    }

    // Puts a position into the set, where there is room for it.
    pub fn insert(&mut self, position: usize) {
        if let Some(member) = self.members.get_mut(position) {
            *member = true;
        }
    }

    // How many positions are in the set.
    pub fn count(&self) -> usize {
        self.members.iter().filter(|member| **member).count()
    }
}
