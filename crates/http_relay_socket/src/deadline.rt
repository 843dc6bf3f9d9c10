ghost use Rattle.std.specs.Prelude.{◌≡◌, ◌+◌, ◌<◌, ◌≤◌, ◌↔◌, IfOk, Err};
ghost use Rattle.std.specs.Duration.{as_nanos};
ghost use Rattle.std.specs.Time.{instant_nanos};

use crate::Patience;
use http_relay_wire::WireFault;
use std::time::{Clock, Duration, Instant};

/// The patience that lasts until a moment: calls together wait no longer. Each costs a reading of the clock.
#[derive(Debug, Drop)]
pub struct Deadline<'a, K> {
    clock: &'a K,
    end: Option<Instant>,
}

impl<'a, K: Clock> Deadline<'a, K> {
    /// The deadline so many milliseconds from now. Where the clock can't be read it has passed.
    pub fn after(clock: &'a K, millis: u32) -> Self {
        let wait = Duration::from_millis(u64::from(millis));
        let end = match Instant::now(clock) {
            Ok(now) => now.checked_add(wait),
            Err(_) => None,
        };
        Deadline { clock, end }
    }
}

impl<'a, K: Clock> Patience for Deadline<'a, K> {
    fn next_wait(&mut self) -> Result<Duration, WireFault> {
        let Some(end) = self.end else {
            return Err(WireFault::Timeout);
        };
        match Instant::now(self.clock) {
            Ok(now) => time_left(now, end),
            Err(_) => Err(WireFault::Timeout),
        }
    }
}

/// How long it is from now to the end, where that is still to come.
fn time_left(now: Instant, end: Instant) -> Result<Duration, WireFault>
    ensures left { IfOk result (λ left. (0 < as_nanos left) × (instant_nanos now + as_nanos left ≡ instant_nanos end)) }
    ensures passed { result ≡ Err WireFault.Timeout ↔ (instant_nanos end ≤ instant_nanos now) }
{
    match end.checked_duration_since(now) {
        Some(left) if !left.is_zero() => Ok(left),
        _ => Err(WireFault::Timeout),
    }
}
