ghost use Rattle.std.specs.Prelude.{◌≡◌, ◌++◌, [], ◌∷◌, OnOk, OnErr};
ghost use Rattle.lb_desk_ports.specs.Calls.{after_call, entry};
ghost use Rattle.lb_desk_ports.specs.Ports.{AddsAsk};

use crate::{Asked, Refused};
use lb_desk_model::{Entry, Event, Reply, Request};
use std::alloc::Global;

/// The event that a script refuses, counted from 0, and how.
pub(crate) type Refusing = Option<(u64, Refused)>;

/// What a scripted port or mover remembers of its calls.
#[derive(Debug, Drop)]
pub(crate) struct Log {
    pub(crate) entries: Vec<Entry>,
    pub(crate) refusals: u64,
    refusing: Refusing,
    events: u64,
}

impl Log {
    /// Nothing was called yet.
    pub(crate) fn new(alloc: Global, refusing: Refusing) -> Self
        ensures entries { result.entries.items ≡ [] }
        ensures refusals { result.refusals ≡ 0 }
    {
        Log {
            entries: Vec::new(alloc),
            refusals: 0,
            refusing,
            events: 0,
        }
    }

    /// Adds an entry, where the script doesn't refuse it and there is memory.
    pub(crate) fn add(&mut self, event: Event, reply: Reply) -> Result<(), Refused>
        ensures ok { OnOk result (self.new.entries.items ≡ self.old.entries.items ++ entry event reply ∷ []) }
        ensures err { OnErr result (self.new.entries.items ≡ self.old.entries.items) }
        ensures refusals { self.new.refusals ≡ self.old.refusals }
    {
        self.may_add()?;
        self.entries.push(Entry { event, reply })?;
        Ok(())
    }

    /// Whether the script takes the next event.
    pub(crate) fn may_add(&mut self) -> Result<(), Refused>
        ensures entries { self.new.entries ≡ self.old.entries }
        ensures refusals { self.new.refusals ≡ self.old.refusals }
    {
        let number = self.events;
        self.events = self.events.saturating_add(1);
        match self.refusing {
            Some((at, refused)) if at == number => Err(refused),
            _ => Ok(()),
        }
    }

    /// Adds the two entries of a request for a server.
    pub(crate) fn ask(&mut self, request: Request, asked: &Asked) -> Result<Asked, Refused>
        ensures entries { AddsAsk request self.old.entries.items self.new.entries.items result }
        ensures refusals { self.new.refusals ≡ self.old.refusals }
    {
        let moment = request.moment;
        let reply = asked.reply();
        self.add(Event::Expire(moment), Reply::Expired(0))?;
        self.add(Event::Serve(request), reply)?;
        Ok(*asked)
    }

    /// Counts the call if it was refused.
    pub(crate) fn note<T>(&mut self, answer: &Result<T, Refused>)
        ensures entries { self.new.entries ≡ self.old.entries }
        ensures refusals { self.new.refusals ≡ after_call answer.now self.old.refusals }
    {
        if let Err(_) = answer {
            self.refusals = self.refusals.saturating_add(1);
        }
    }
}
