//! Numbers that look random, and are the same in each run.

/// A linear congruential generator, of whose numbers the upper bits are taken.
#[derive(Drop)]
pub(crate) struct Dice {
    state: u64,
}

impl Dice {
    pub(crate) fn new(seed: u64) -> Self {
        Dice { state: seed }
    }

    /// A number below `sides`, and 0 where there are no sides.
    pub(crate) fn roll(&mut self, sides: u32) -> u32 {
        self.state = self
            .state
            .wrapping_mul(6364136223846793005)
            .wrapping_add(1442695040888963407);
        ((self.state >> 33) as u32).checked_rem(sides).unwrap_or(0)
    }
}
