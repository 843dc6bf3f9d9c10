use std::sync::atomic::{AtomicBool, Ordering};
use std::thread;
use std::time::{Clock, Duration};

/// How many pins are passed between two rests.
const PIECE: usize = 1024;

/// How long a rest is, in milliseconds.
const REST_MILLIS: u64 = 4;

/// How fast a thread goes through the pins of a table.
#[derive(Clone, Copy)]
pub enum Pace<'a> {
    /// It never rests. 1,000,000 pins take some 0.6 s of one processor, and slow down what runs beside it on the same processor.
    AtOnce,
    /// It rests for 4 ms after each 1,024 pins of a table, until this flag is set. 1,000,000 pins take some 4 s longer so, and a sixth of a
    /// processor. A table of fewer than 1,024 pins takes as long as without rests.
    InPieces(&'a AtomicBool),
}

impl Pace<'_> {
    /// Rests, if that is due after the pin of this number. The first pin of a table has number 0.
    pub(crate) fn rest_after<R: Clock>(self, rt: &R, number: usize) {
        let Pace::InPieces(is_ending) = self else {
            return;
        };
        if number % PIECE == PIECE - 1 && !is_ending.load(Ordering::SeqCst) {
            thread::sleep(rt, Duration::from_millis(REST_MILLIS));
        }
    }
}
