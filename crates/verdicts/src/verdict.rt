// The verdict on a rule at the entries of a network.
#[derive(Clone, Copy, Debug, PartialEq, Eq)]
pub enum Verdict {
    // The rule holds at every entry under every setting.
    Holds,
    // The rule breaks: at this entry, the least that fails, and this setting, picked among its failing ones.
    Breaks(usize, u32),
}

// A verdict with the rounds that judging took.
#[derive(Clone, Copy, Debug, PartialEq, Eq)]
pub struct Judgement {
    pub rounds: usize,
    pub verdict: Verdict,
}
