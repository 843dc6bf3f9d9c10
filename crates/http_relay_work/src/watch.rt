ghost use Rattle.std.specs.Prelude.{◌≤◌};

use crate::{MOST_ON_CALL, Roster};
use std::alloc::{AllocError, Global};
use std::sync::Wait;
use std::thread;
use std::time::{Clock, Duration};

/// How many milliseconds pass between two looks.
const LOOK_MILLIS: u64 = 5;

/// After how many looks at a line that doesn't move workers are called.
const LOOKS_BEFORE_CALLS: u32 = 2;

/// After how many looks at a line that doesn't move more workers are called at each look.
const LOOKS_BEFORE_MORE: u32 = 8;

/// A line is slow if its last client's turn wouldn't come within so many looks, at the pace of the last one.
const LOOKS_IN_LINE: u64 = 4;

/// After how many looks without anything to do the watch sleeps, until a request begins.
const LOOKS_BEFORE_SLEEP: u32 = 20;

/// Which part of the workers that are too many rests after each look: one of so many.
const SURPLUS_PARTS: usize = 32;

/// Watches the workers of a balancer, and says when others have to be called.
///
/// A worker that has the same request at two looks, 5 ms apart, counts as one that waits: for a server, in a queue, or for its client. So
/// does one whose request began between them, if most that began so are still under way. All others are at work, or free. The line is slow
/// if its last client would wait there for more than 20 ms, at the pace of the last 5 ms. If it is slow and, at two looks in a row, fewer
/// than half of `tune.relays` workers are at work, as many are called as are missing, until more are at work or the line is empty. From the
/// eighth look in a row on twice as many are called as at the last one, and half of that after each look at which enough are at work. Never
/// are more called than clients are in the line. If more than `tune.relays` are at work, a part of those on call is sent to rest.
#[derive(Drop)]
pub struct Watch<'a> {
    roster: &'a Roster,
    relays: u8,
    /// How many workers on call were made.
    made: usize,
    /// What was seen of each worker last.
    seen: Vec<u64>,
    /// At how many looks in a row too few were at work.
    stalls: u32,
    /// How many workers were called last, less a half for each look at which enough were at work since.
    pace: usize,
    /// At how many looks in a row there was nothing to do.
    calm: u32,
}

/// What a look says of the workers.
#[derive(Clone, Copy, Debug, Default, PartialEq, Eq)]
struct Look {
    /// How many have the request that they had at the last look.
    held: usize,
    /// How many have one that began after it.
    fresh: usize,
    /// How many requests began after it.
    begun: u64,
    /// How many of those that are always at the line have none.
    free: usize,
}

impl Look {
    /// The same, with a worker more whose number was and is so.
    fn with(self, before: u64, now: u64, is_at_line: bool) -> Self {
        let mut look = self;
        let has_one = now % 2 == 1;
        if has_one && now == before {
            look.held = look.held.saturating_add(1);
        } else if has_one {
            look.fresh = look.fresh.saturating_add(1);
        } else if is_at_line {
            look.free = look.free.saturating_add(1);
        }
        let begun = now.div_ceil(2).saturating_sub(before.div_ceil(2));
        look.begun = look.begun.saturating_add(begun);
        look
    }

    /// How many wait.
    fn waiting(self) -> usize {
        let fresh = self.fresh as u64;
        if fresh.saturating_add(fresh) > self.begun {
            self.held.saturating_add(self.fresh)
        } else {
            self.held
        }
    }
}

impl<'a> Watch<'a> {
    /// Watches so many workers that are always at the line, and those that will be called. It allocates all its memory here. The only
    /// error is out of memory.
    pub fn new(alloc: Global, roster: &'a Roster, relays: u8) -> Result<Self, AllocError> {
        let mut seen = Vec::with_capacity(alloc, roster.places())?;
        for _ in 0..usize::from(relays) {
            seen.push(0)?;
        }
        Ok(Watch {
            roster,
            relays,
            made: 0,
            seen,
            stalls: 0,
            pace: 0,
            calm: 0,
        })
    }

    /// Looks at all workers while so many clients are in the line, and says how many workers have to be called: at most one for each
    /// client. It costs a read of each worker's number.
    pub fn look(&mut self, in_line: usize) -> usize
        ensures { result ≤ in_line }
    {
        let relays = usize::from(self.relays);
        let look = self.count();
        let at_work = self.roster.present().saturating_sub(look.waiting());
        let surplus = at_work.saturating_sub(relays);
        self.roster.set_surplus(surplus.div_ceil(SURPLUS_PARTS));
        let is_calm = in_line == 0 && look.free > 0 && surplus == 0;
        self.calm = if is_calm {
            self.calm.saturating_add(1)
        } else {
            0
        };
        let is_slow = in_line as u64 > look.begun.saturating_mul(LOOKS_IN_LINE);
        let goes_on = in_line > 0 && self.stalls >= LOOKS_BEFORE_CALLS;
        let is_stalled = (is_slow || goes_on) && at_work < relays.div_ceil(2);
        self.calls(is_stalled, relays.saturating_sub(at_work))
            .min(in_line)
    }

    /// How many are called after this look, at which so many were missing.
    fn calls(&mut self, is_stalled: bool, missing: usize) -> usize {
        if !is_stalled {
            self.stalls = 0;
            self.pace /= 2;
            return 0;
        }
        self.stalls = self.stalls.saturating_add(1);
        if self.stalls < LOOKS_BEFORE_CALLS {
            return 0;
        }
        let times = if self.stalls < LOOKS_BEFORE_MORE {
            1
        } else {
            2
        };
        self.pace = missing
            .max(self.pace.saturating_mul(times))
            .min(MOST_ON_CALL);
        self.pace
    }

    fn count(&mut self) -> Look {
        let relays = usize::from(self.relays);
        let mut look = Look::default();
        for place in 0..self.seen.len() {
            if let (Some(now), Some(seen)) = (self.roster.turns(place), self.seen.get_mut(place)) {
                look = look.with(*seen, now, place < relays);
                *seen = now;
            }
        }
        look
    }

    /// The place of one worker on call more, if there may be one.
    pub fn next_place(&self) -> Option<usize> {
        if self.made < MOST_ON_CALL {
            Some(usize::from(self.relays) + self.made)
        } else {
            None
        }
    }

    /// Watches also the worker on call that was made for the next place.
    pub fn add(&mut self) {
        if self.seen.push(0).is_ok() && self.made < MOST_ON_CALL {
            self.made += 1;
        }
    }

    /// Waits until it is time for the next look: 5 ms, or, if there was nothing to do for a while and it may sleep, until a request begins.
    pub fn wait<R: Wait + Clock>(&mut self, rt: &R, may_sleep: bool) {
        if may_sleep && self.calm >= LOOKS_BEFORE_SLEEP {
            self.roster.sleep(rt, &self.seen);
            self.calm = 0;
        } else {
            thread::sleep(rt, Duration::from_millis(LOOK_MILLIS));
        }
    }
}
