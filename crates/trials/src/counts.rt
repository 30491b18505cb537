// Counts by number.
ghost use Rattle.std.specs.Prelude.{◌≡◌, ℕ, slice_index_or, slice_set};
ghost use Rattle.trials.specs.Counts.{add_up};

// N counts, each up to the largest number.
#[derive(Clone, Copy)]
pub struct Counts<const N: usize> {
    counts: [usize; N],
}

impl<const N: usize> Counts<N> {
    // Nothing is counted yet.
    pub fn new() -> Counts<N>
        ensures { (i : ℕ) → slice_index_or result.counts i 0 ≡ 0 }
    {
        Counts { counts: [0; N] }
    }

    // Adds to a count, if there is one with the number.
    pub fn add(&mut self, number: usize, more: usize)
        ensures { self.new.counts
            ≡ slice_set self.old.counts number (add_up (slice_index_or self.old.counts number 0) more) }
    {
        if number < N {
            self.counts[number] = self.counts[number].saturating_add(more);
        }
    }

    // The count with a number, or 0.
    pub fn get(&self, number: usize) -> usize
        ensures { result ≡ slice_index_or self.now.counts number 0 }
    {
        self.counts.get(number).copied().unwrap_or(0)
    }
}
