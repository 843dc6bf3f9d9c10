//! The clock of a process to which pins came back that were used before it began.
use lb_run_floor::{Desks, Floor, Host};
use lb_types::Moment;
use std::time::{Duration, Instant};

/// The moment so many milliseconds earlier, or as far back as the system's clock goes.
pub fn set_back(from: Instant, millis: u64) -> Instant {
    let (mut earlier, mut left) = (from, millis);
    let mut step = 1_u64 << 63;
    for _ in 0..64 {
        if step <= left {
            if let Some(moment) = earlier.checked_sub(Duration::from_millis(step)) {
                earlier = moment;
                left -= step;
            }
        }
        step /= 2;
    }
    earlier
}

/// The moment now, as the clocks of all threads count; 0 where the clock can't be read.
pub(crate) fn now_on<R: Host, D: Desks, G: Drop>(rt: &R, floor: &Floor<'_, D, G>) -> Moment {
    let millis = match floor.start.elapsed(rt) {
        Ok(passed) => u64::try_from(passed.as_millis()).unwrap_or(u64::MAX),
        Err(_) => 0,
    };
    Moment::from_millis(millis)
}
