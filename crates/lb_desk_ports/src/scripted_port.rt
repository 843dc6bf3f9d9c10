ghost use Rattle.std.specs.Prelude.{◌≡◌, []};

use crate::log::Log;
use crate::{Asked, Filed, Opening, Pinning, Port, Refused, Shut};
use lb_desk_model::{Entry, Event, Request, SetPin};
use lb_types::ServerId;
use std::alloc::Global;

/// What a `ScriptedPort` answers to a request for a connection.
#[derive(Clone, Copy, Debug, PartialEq, Eq)]
pub enum ScriptedOpening {
    /// The connection is open.
    Opened,
    /// As many are open as the server's `maxconn` says.
    Full,
    /// The server doesn't serve.
    NotServing,
}

/// What a `ScriptedPort` answers.
#[derive(Clone, Copy, Debug, PartialEq, Eq)]
pub struct PortScript<'a> {
    /// To each request for a server.
    pub asked: Asked,
    /// To each pin that is set.
    pub set: Pinning,
    /// To the requests for a connection, in turn. Those after the last are opened.
    pub openings: &'a [ScriptedOpening],
    /// To each connection that is given back.
    pub shut: Shut,
    /// To each result of a check.
    pub filed: Filed,
    /// The event that is refused, counted from 0, and how.
    pub refusing: Option<(u64, Refused)>,
}

/// A port for tests, which answers by a script and keeps its entries. Out of memory for these is a refusal.
#[derive(Debug, Drop)]
pub struct ScriptedPort<'a> {
    script: &'a PortScript<'a>,
    openings: &'a [ScriptedOpening],
    log: Log,
}

/// A connection that a `ScriptedPort` opened.
#[derive(Debug)]
pub struct ScriptedSlot {
    server: ServerId,
}

impl<'a> ScriptedPort<'a> {
    /// A port that nobody called yet.
    pub fn new(alloc: Global, script: &'a PortScript<'a>) -> Self
        ensures entries { ⟦<ScriptedPort<'a> as Port<()>>⟧.entries result ≡ [] }
        ensures refusals { ⟦<ScriptedPort<'a> as Port<()>>⟧.refusals result ≡ 0 }
    {
        ScriptedPort {
            script,
            openings: script.openings,
            log: Log::new(alloc, script.refusing),
        }
    }

    /// What was asked, and what was replied.
    pub fn entries(&self) -> &[Entry]
        ensures { result.now ≡ ⟦<ScriptedPort<'a> as Port<()>>⟧.entries self.now }
    {
        &self.log.entries
    }

    /// How many calls were refused.
    pub fn refusals(&self) -> u64
        ensures { result ≡ ⟦<ScriptedPort<'a> as Port<()>>⟧.refusals self.now }
    {
        self.log.refusals
    }

    // The answer to the next request for a connection.
    fn next_opening(&mut self) -> ScriptedOpening
        ensures { self.new.log ≡ self.old.log }
    {
        match self.openings.split_first() {
            Some((first, rest)) => {
                self.openings = rest;
                *first
            }
            None => ScriptedOpening::Opened,
        }
    }
}

impl<R> Port<R> for ScriptedPort<'_> {
    type Slot = ScriptedSlot;

    ghost entries = { λ port. port.log.entries.items };

    ghost refusals = { λ port. port.log.refusals };

    ghost server_of = { λ slot. slot.server };

    fn ask(&mut self, _rt: &R, request: Request) -> Result<Asked, Refused> {
        let answer = self.log.ask(request, &self.script.asked);
        self.log.note(&answer);
        answer
    }

    fn set(&mut self, _rt: &R, pin: SetPin) -> Result<Pinning, Refused> {
        let pinning = self.script.set;
        let answer = match self.log.add(Event::Set(pin), pinning.reply()) {
            Ok(()) => Ok(pinning),
            Err(refused) => Err(refused),
        };
        self.log.note(&answer);
        answer
    }

    fn open(&mut self, _rt: &R, server: ServerId) -> Result<Opening<ScriptedSlot>, Refused> {
        let opening = match self.next_opening() {
            ScriptedOpening::Opened => Opening::Opened(ScriptedSlot { server }),
            ScriptedOpening::Full => Opening::Full,
            ScriptedOpening::NotServing => Opening::NotServing,
        };
        let answer = match self.log.add(Event::Open(server), opening.reply()) {
            Ok(()) => Ok(opening),
            Err(refused) => {
                forget(opening);
                Err(refused)
            }
        };
        self.log.note(&answer);
        answer
    }

    fn shut(&mut self, _rt: &R, slot: ScriptedSlot) -> Result<Shut, Refused> {
        let ScriptedSlot { server } = slot;
        let shut = self.script.shut;
        let answer = match self.log.add(Event::Close(server), shut.reply()) {
            Ok(()) => Ok(shut),
            Err(refused) => Err(refused),
        };
        self.log.note(&answer);
        answer
    }

    fn check(&mut self, _rt: &R, server: ServerId, ok: bool) -> Result<Filed, Refused> {
        let filed = self.script.filed;
        let answer = match self.log.add(Event::Check(server, ok), filed.reply()) {
            Ok(()) => Ok(filed),
            Err(refused) => Err(refused),
        };
        self.log.note(&answer);
        answer
    }
}

// A slot of which no connection was opened.
fn forget(opening: Opening<ScriptedSlot>) {
    if let Opening::Opened(slot) = opening {
        let ScriptedSlot { server: _ } = slot;
    }
}
