// Counts of how cases came out.
ghost use Rattle.std.specs.Prelude.{◌≡◌, ◌&&◌, ℕ, fold, nat_lt};
ghost use Rattle.std.specs.List.{list_all};
ghost use Rattle.trials.specs.Counts.{add_up, counted, refused_by};

use crate::counts::Counts;
use anyhow::ensure;
use std::io;

// How many cases were refused, by the number of the refusal, how many were not, and how many differed from what was
// expected.
#[derive(Clone, Copy)]
pub struct Outcomes<'a> {
    // The numbers of the refusals that have to come.
    refusals: &'a [u8],
    refused: Counts<256>,
    accepted: usize,
    differences: usize,
}

impl<'a> Outcomes<'a> {
    // No case yet; each of these refusals has to come.
    pub fn new(refusals: &'a [u8]) -> Outcomes<'a>
        ensures refusals { result.refusals.now ≡ refusals.now }
        ensures refused { (k : ℕ) → refused_by result k ≡ 0 }
        ensures accepted { result.accepted ≡ 0 }
        ensures differences { result.differences ≡ 0 }
    {
        Outcomes {
            refusals,
            refused: Counts::new(),
            accepted: 0,
            differences: 0,
        }
    }

    // Counts a case by the number of its refusal, if it has one.
    pub fn add(&mut self, refusal: Option<u8>)
        ensures { self.new ≡ counted self.old refusal }
    {
        match refusal {
            None => self.accepted = self.accepted.saturating_add(1),
            Some(number) => self.refused.add(usize::from(number), 1),
        }
    }

    pub fn add_difference(&mut self)
        ensures { self.new ≡ record self.old { differences = add_up self.old.differences 1 } }
    {
        let count = &mut self.differences;
        *count = count.saturating_add(1);
    }

    // How many cases were not refused.
    pub fn accepted(&self) -> usize
        ensures { result ≡ self.now.accepted }
    {
        self.accepted
    }

    pub fn differences(&self) -> usize
        ensures { result ≡ self.now.differences }
    {
        self.differences
    }

    // How many cases were not refused, or refused by a refusal that has to come.
    pub fn total(&self) -> usize
        ensures { result
            ≡ fold (λ n k. add_up n (refused_by self.now k)) self.now.accepted self.now.refusals.now }
    {
        self.refusals.iter().fold(self.accepted, |total, number| {
            total.saturating_add(self.refused.get(usize::from(*number)))
        })
    }

    // Prints a line for each refusal that has to come.
    pub fn print_refused(&self, rt: &impl Print) -> io::Result<()> {
        for number in self.refusals {
            let count = self.refused.get(usize::from(*number));
            println!(rt; "refused {number}: {count}")?;
        }
        Ok(())
    }

    // Whether each refusal came, and some case was not refused.
    pub fn is_complete(&self) -> bool
        ensures { result
            ≡ list_all (λ k. nat_lt 0 (refused_by self.now k)) self.now.refusals.now && nat_lt 0 self.now.accepted }
    {
        self.refusals
            .iter()
            .all(|number| self.refused.get(usize::from(*number)) > 0)
            && self.accepted > 0
    }

    // An error where some refusal never came, or something differed.
    pub fn ensure_right(&self) -> anyhow::Result<()> {
        ensure!(self.is_complete(), "some refusal never came");
        ensure!(
            self.differences == 0,
            "what came differs from what was expected"
        );
        Ok(())
    }
}
