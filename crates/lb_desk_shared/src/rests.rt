use pin_table::Rests;
use std::thread;
use std::time::{Clock, Duration};

/// How many pins are passed between two rests.
const PIECE: usize = 4096;

/// How long a rest is, in milliseconds.
const REST_MILLIS: u64 = 1;

/// A rest after each piece of the pins.
#[derive(Drop)]
pub(crate) struct ShortRests<'a, R> {
    pub(crate) rt: &'a R,
}

impl<R: Clock> Rests for ShortRests<'_, R> {
    fn rest_after(&self, pins: usize) {
        if pins % PIECE == 0 {
            thread::sleep(self.rt, Duration::from_millis(REST_MILLIS));
        }
    }
}
