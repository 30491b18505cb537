// The lists that judging works in.
use conditions::set::ConditionSet;
use std::alloc::{AllocError, Global};

// Two sets for each of ten places.
const SPARE: usize = 20;

#[derive(Drop)]
pub struct Space<S> {
    pub main: Vec<S>,
    pub spare: Vec<S>,
}

// Sets of all settings.
fn whole_sets<S: ConditionSet>(heap: Global, count: usize) -> Result<Vec<S>, AllocError> {
    vec![in heap; S::all(); count]
}

impl<S: ConditionSet> Space<S> {
    // Each set is of all settings.
    pub fn new(heap: Global, main: usize) -> Result<Space<S>, AllocError> {
        let main = whole_sets(heap, main)?;
        let spare = whole_sets(heap, SPARE)?;
        Ok(Space { main, spare })
    }
}
