//! Numbers that look random, and are the same in each run.

use http_relay_wire::WireFault;

/// The generator SplitMix64, of whose numbers the upper halves are taken.
#[derive(Drop)]
pub(crate) struct Dice {
    state: u64,
}

impl Dice {
    pub(crate) fn new(seed: u64) -> Self {
        Dice { state: seed }
    }

    /// A number below `sides`, and 0 where there are no sides.
    pub(crate) fn roll(&mut self, sides: usize) -> usize {
        self.state = self.state.wrapping_add(0x9E37_79B9_7F4A_7C15);
        let once = (self.state ^ (self.state >> 30)).wrapping_mul(0xBF58_476D_1CE4_E5B9);
        let twice = (once ^ (once >> 27)).wrapping_mul(0x94D0_49BB_1331_11EB);
        let number = twice ^ (twice >> 31);
        ((number >> 32) as usize).checked_rem(sides).unwrap_or(0)
    }

    /// Whether it happens, as it does once in so many times.
    pub(crate) fn is_one_in(&mut self, times: usize) -> bool {
        self.roll(times) == 0
    }

    /// One of these numbers.
    pub(crate) fn number(&mut self, numbers: &[usize]) -> usize {
        let at = self.roll(numbers.len());
        numbers.get(at).copied().unwrap_or(0)
    }

    /// One of these words.
    pub(crate) fn word(&mut self, words: &[&'static str]) -> &'static str {
        let at = self.roll(words.len());
        words.get(at).copied().unwrap_or("")
    }

    /// Any byte.
    pub(crate) fn byte(&mut self) -> u8 {
        (self.roll(256) % 256) as u8
    }

    /// One of the two ways in which a wire fails.
    pub(crate) fn fault(&mut self) -> WireFault {
        if self.is_one_in(2) {
            WireFault::Timeout
        } else {
            WireFault::Broken
        }
    }
}
