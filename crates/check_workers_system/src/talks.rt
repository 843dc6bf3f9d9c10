use crate::ProbeTarget;
use crate::talk::Talk;
use lb_types::{MAX_SERVERS, ServerId};
use mio::{Events, Poll, Token};
use std::alloc::{AllocError, Global};
use std::net::Net;
use std::time::{Clock, Duration};
use std::{io, thread};

/// How many milliseconds it rests where the system doesn't say what is ready.
const REST_MILLIS: u64 = 10;

/// The probes of a backend's servers, and what the system reports of them.
#[derive(Drop)]
pub(crate) struct Talks<'a, R> {
    rt: &'a R,
    poll: Poll,
    events: Events,
    /// By the servers' places.
    talks: Vec<Option<Talk<'a, R>>>,
    /// Where the search for a probe that has ended begins, so that each comes in turn.
    next: usize,
}

impl<'a, R: Net + Clock> Talks<'a, R> {
    pub(crate) fn new(
        rt: &'a R,
        alloc: Global,
        targets: &[Option<ProbeTarget<'a>>],
    ) -> io::Result<Self> {
        Ok(Talks {
            rt,
            poll: Poll::new(rt)?,
            events: Events::with_capacity(alloc, MAX_SERVERS)?,
            talks: talks_of(alloc, targets)?,
            next: 0,
        })
    }

    /// Begins a probe of the server, if it has a target.
    pub(crate) fn begin(&mut self, server: ServerId) {
        let place = server.index();
        if let Some(Some(talk)) = self.talks.get_mut(place) {
            talk.begin(self.rt, self.poll.registry(), place);
        }
    }

    /// Has each probe of which the system reports something go on. Waits for such a report at most so many milliseconds, and no longer
    /// than the next limit lasts.
    pub(crate) fn go_on(&mut self, millis: u64) {
        let mut wait = Duration::from_millis(millis);
        for talk in self.talks.iter_mut() {
            wait = wait.min(time_left(talk).unwrap_or(wait));
        }
        if self.poll.poll(&mut self.events, Some(wait)).is_err() {
            thread::sleep(self.rt, Duration::from_millis(REST_MILLIS));
        }
        for event in self.events.iter() {
            let Token(place) = event.token();
            if let Some(Some(talk)) = self.talks.get_mut(place) {
                talk.go_on();
            }
        }
    }

    /// Of these servers the next whose probe has ended, with the answer, which is given once. A server without a target is never well.
    pub(crate) fn next_answer(
        &mut self,
        under_way: &[bool; MAX_SERVERS],
    ) -> Option<(ServerId, bool)> {
        for step in 0..MAX_SERVERS {
            let place = (self.next % MAX_SERVERS + step) % MAX_SERVERS;
            if under_way[place] {
                if let Some(ok) = self.answer_at(place) {
                    self.next = place + 1;
                    return Some((ServerId::new(place as u8), ok));
                }
            }
        }
        None
    }

    fn answer_at(&mut self, place: usize) -> Option<bool> {
        match self.talks.get_mut(place) {
            Some(Some(talk)) => talk.take_answer(),
            _ => Some(false),
        }
    }
}

/// A talk with each server that has a target.
fn talks_of<'a, R: Net + Clock>(
    alloc: Global,
    targets: &[Option<ProbeTarget<'a>>],
) -> Result<Vec<Option<Talk<'a, R>>>, AllocError> {
    let mut talks = Vec::with_capacity(alloc, targets.len())?;
    for target in targets {
        talks.push(match target {
            Some(target) => Some(Talk::new(alloc, *target)?),
            None => None,
        })?;
    }
    Ok(talks)
}

/// How long the server's probe may still take, if one is under way.
fn time_left<R: Net + Clock>(talk: &mut Option<Talk<'_, R>>) -> Option<Duration> {
    match talk {
        Some(talk) => talk.time_left(),
        None => None,
    }
}
