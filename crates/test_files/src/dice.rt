//! Numbers that look like chance and are the same in each run.

/// A small linear congruential generator.
#[derive(Clone, Copy, Debug)]
pub struct Dice {
    state: u32,
}

impl Dice {
    pub fn new(seed: u32) -> Dice {
        Dice { state: seed }
    }

    /// A number below 65,536.
    pub fn roll(&mut self) -> u32 {
        self.state = self
            .state
            .wrapping_mul(1_664_525)
            .wrapping_add(1_013_904_223);
        self.state >> 16
    }

    /// Whether something comes that is left out once in three times.
    pub fn comes(&mut self) -> bool {
        self.roll() % 3 != 0
    }

    /// A number below a count, and 0 where the count is 0.
    pub fn below(&mut self, count: usize) -> usize {
        (self.roll() as usize).checked_rem(count).unwrap_or(0)
    }
}
