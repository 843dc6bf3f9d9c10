ghost use Rattle.std.specs.Prelude.{◌≡◌};
ghost use Rattle.check_workers_round.specs.Probing.{Ends};

use crate::ProbeTarget;
use crate::talks::Talks;
use check_workers_round::{Probed, Probes};
use lb_types::{MAX_SERVERS, ServerId};
use std::alloc::Global;
use std::io;
use std::net::Net;
use std::time::Clock;

/// Probes the servers of a backend by sockets. None waits for another: the sockets don't block, and the system reports which of them
/// can go on.
///
/// A probe fails if its connection can't be begun, as when no file descriptor is left. Each that is under way has one.
#[derive(Drop)]
pub struct SocketProbes<'a, R> {
    talks: Talks<'a, R>,
    under_way: [bool; MAX_SERVERS],
}

impl<'a, R: Net + Clock> SocketProbes<'a, R> {
    /// Probes these servers, which stand at their places in the configuration's order. One without a target is never well. It takes all
    /// its memory here: 16384 bytes for each server whose probes send a request. The error is the system's or out of memory.
    pub fn new(rt: &'a R, alloc: Global, targets: &[Option<ProbeTarget<'a>>]) -> io::Result<Self> {
        Ok(SocketProbes {
            talks: Talks::new(rt, alloc, targets)?,
            under_way: [false; MAX_SERVERS],
        })
    }

    /// A probe that was under way and has ended, if one has.
    fn take_ended(&mut self) -> Option<Probed>
        ensures { Ends self.old.under_way self.new.under_way result }
    {
        let (server, ok) = self.talks.next_answer(&self.under_way)?;
        if !self.under_way[server.index()] {
            return None;
        }
        self.under_way[server.index()] = false;
        Some(Probed { server, ok })
    }
}

impl<'a, R: Net + Clock> Probes for SocketProbes<'a, R> {
    ghost use Rattle.std.specs.Prelude.{None};

    ghost under_way = { λ probes. probes.under_way };

    ghost begun = { λ probes. None };

    ghost ended = { λ probes. None };

    fn is_under_way(&self, server: ServerId) -> bool {
        self.under_way[server.index()]
    }

    fn begin(&mut self, server: ServerId) {
        self.under_way[server.index()] = true;
        self.talks.begin(server);
    }

    fn next_ended(&mut self, millis: u64) -> Option<Probed> {
        if let Some(ended) = self.take_ended() {
            return Some(ended);
        }
        if !self.under_way.contains(&true) {
            return None;
        }
        self.talks.go_on(millis);
        self.take_ended()
    }
}
