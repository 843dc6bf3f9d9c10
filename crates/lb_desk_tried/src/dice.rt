//! Numbers that look random, and are the same in each run.

/// The generator SplitMix64, of whose numbers the upper halves are taken.
#[derive(Debug, Drop)]
pub(crate) struct Dice {
    state: u64,
}

impl Dice {
    pub(crate) fn new(seed: u64) -> Self {
        Dice { state: seed }
    }

    /// A number below `sides`, and 0 where there are no sides.
    pub(crate) fn roll(&mut self, sides: u32) -> u32 {
        self.state = self.state.wrapping_add(0x9E37_79B9_7F4A_7C15);
        let once = (self.state ^ (self.state >> 30)).wrapping_mul(0xBF58_476D_1CE4_E5B9);
        let twice = (once ^ (once >> 27)).wrapping_mul(0x94D0_49BB_1331_11EB);
        let number = twice ^ (twice >> 31);
        u32::try_from(number >> 32)
            .unwrap_or(0)
            .checked_rem(sides)
            .unwrap_or(0)
    }

    /// Whether it happens, as it does once in so many times.
    pub(crate) fn is_one_in(&mut self, times: u32) -> bool {
        self.roll(times) == 0
    }
}
