//! How long calls take.

use anyhow::Result;
use std::rt::{Clock, Runtime};
use std::time::Instant;

/// How many calls there were, how long they took together, and how long the longest one took, in nanoseconds.
#[derive(Clone, Copy, Debug)]
pub struct Times {
    calls: u64,
    all: u128,
    longest: u128,
}

impl Times {
    /// No call so far.
    pub fn none() -> Self {
        Times {
            calls: 0,
            all: 0,
            longest: 0,
        }
    }

    /// Counts one call, which began then and ends now.
    pub fn add(&mut self, rt: &impl Clock, start: Instant) -> Result<()> {
        let nanos = start.elapsed(rt)?.as_nanos();
        self.calls = self.calls.saturating_add(1);
        self.all = self.all.saturating_add(nanos);
        self.longest = self.longest.max(nanos);
        Ok(())
    }

    /// Reports the time of a call, on the average and at most, with the clock's share in it.
    pub fn tell(&self, rt: &impl Runtime, what: &str) -> Result<()> {
        let mean = self.all.checked_div(u128::from(self.calls)).unwrap_or(0);
        let longest = self.longest / 1000;
        eprintln!(rt; "{what}: {mean} ns a call, the longest {longest} us")?;
        Ok(())
    }
}

/// Reports what the two looks at the clock cost that are in the time of each call.
pub fn tell_clock(rt: &impl Runtime) -> Result<()> {
    let mut times = Times::none();
    for _ in 0..100_000 {
        let start = Instant::now(rt)?;
        times.add(rt, start)?;
    }
    times.tell(rt, "the clock alone")
}
