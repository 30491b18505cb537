// A sequence of numbers that its seed determines.
#[derive(Drop)]
pub struct Random {
    state: u64,
}

impl Random {
    pub fn new(seed: u64) -> Random {
        Random { state: seed }
    }

    pub fn word(&mut self) -> u64 {
        self.state = self.state.wrapping_add(0x9E37_79B9_7F4A_7C15);
        let z = self.state;
        let z = (z ^ (z >> 30)).wrapping_mul(0xBF58_476D_1CE4_E5B9);
        let z = (z ^ (z >> 27)).wrapping_mul(0x94D0_49BB_1331_11EB);
        z ^ (z >> 31)
    }

    // A number below `end`; 0 where `end` is 0.
    pub fn below(&mut self, end: usize) -> usize {
        let x = (self.word() >> 8) as usize;
        x.checked_rem(end).unwrap_or(0)
    }

    // Whether one in `many` comes.
    pub fn one_in(&mut self, many: usize) -> bool {
        self.below(many) == 0
    }
}
