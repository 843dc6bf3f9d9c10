ghost use Rattle.std.specs.Prelude.{None};

use crate::Attended;
use lb_desk_ports::Clock;
use lb_types::Moment;
use std::time::{Duration, Instant};
use std::{thread, time};

/// The system's clock, in milliseconds since a start that several clocks can share.
#[derive(Clone, Copy)]
pub struct SystemClock<'a> {
    start: Instant,
    last: Moment,
    /// The client for whose server is waited in a pause, and which is looked at after it. Once it is gone no wait is of use, so all time
    /// has passed.
    attended: Option<&'a Attended>,
}

impl<'a> SystemClock<'a> {
    /// A clock that counts from this start. Moments of clocks with one start can be compared.
    pub fn new(start: Instant) -> Self {
        SystemClock {
            start,
            last: Moment::from_millis(0),
            attended: None,
        }
    }

    /// The same, which looks after each pause whether the client that is attended to has left. From there on, until the next client's
    /// request begins, the moment is the last one that there is.
    pub fn beside(start: Instant, clients: Option<&'a Attended>) -> Self {
        SystemClock {
            start,
            last: Moment::from_millis(0),
            attended: clients,
        }
    }
}

impl<'a, R: time::Clock> Clock<R> for SystemClock<'a> {
    ghost told = { λ clock. None };

    ghost pauses = { λ clock. None };

    fn now(&mut self, rt: &R) -> Moment {
        if let Some(client) = self.attended
            && client.was_gone()
        {
            return Moment::from_millis(u64::MAX);
        }
        if let Ok(now) = Instant::now(rt) {
            let millis = now.duration_since(self.start).as_millis();
            self.last = Moment::from_millis(u64::try_from(millis).unwrap_or(u64::MAX));
        }
        self.last
    }

    fn pause(&mut self, rt: &R, millis: u64) {
        if let Some(client) = self.attended {
            client.note_wait(true);
        }
        thread::sleep(rt, Duration::from_millis(millis));
        if let Some(client) = self.attended {
            client.note_wait(false);
            client.look();
        }
    }
}
