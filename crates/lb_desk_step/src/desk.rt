ghost use Rattle.std.specs.Prelude.{◌≡◌, ◌<◌, ◌↔◌, true, [], take, length, IfOk, OnErr, IsErrOf};
ghost use Rattle.std.specs.Option.{option_to_list};
ghost use Rattle.lb_desk_model.specs.Worn.{ends_one, open_connections};
ghost use Rattle.lb_desk_tail.specs.Tail.{leaving};
ghost use Rattle.lb_desk_step.specs.Planning.{PlansNow, TakesPlan, is_worn_for_two};
ghost use Rattle.lb_desk_step.specs.Desk.{IsDesk, KeepsHeadline, KeepsNoneBad, StandsAt, Takes, is_worn_for, may_take_memory, opening_desk};

use crate::act::answer;
use crate::connected::{closed_by, opened_by};
use crate::planning::{Planned, plan_for};
use crate::taken::{Taken, TakenPlan, keep};
use lb_desk_core::Core;
use lb_desk_model::{Backend, Entry, Event, Reply};
use lb_desk_ports::Refused;
use lb_desk_tail::Tail;
use pin_set::{Score, TablePin};
use pin_table::{NoRest, TableCopy, TableRoom};
use std::alloc::{AllocError, Global};
use std::hash::BuildHasher;
use std::marker::Model;

/// At so many events and open connections a desk is exhausted: one event more for each open connection still fits into 64 bits.
const WORN: u64 = 1 << 63;

/// One backend as it runs: its servers, its table of pins, and the journal of its events.
#[derive(Drop)]
pub struct Desk<S: BuildHasher> {
    core: Core<S>,
    journal: Tail<Entry>,
    /// How many connections are open at all servers together.
    connections: u64,
    alloc: Global,
}

impl<S: BuildHasher> Model for Desk<S> {
    ghost use Rattle.lb_desk_step.specs.Planning.{PlansNow, is_worn_for_two};
    ghost use Rattle.lb_desk_step.specs.Desk.{DeskView};
    ghost use Rattle.lb_desk_step.specs.Parts.{AgreeParts};

    ghost Value = { DeskView };

    ghost view = { λ d. record { shown = d.core.shown; journal = d.journal } };

    ghost invariant = { λ d. AgreeParts d.core d.journal d.connections };
}

impl<S: BuildHasher + Drop> Desk<S> {
    /// The desk of a backend at its opening. Its journal keeps so many of the newest entries, 1 or more; the memory for them is
    /// taken here, whole. The only error is out of memory.
    ///
    /// The hasher finds pins, and no promise depends on it.
    pub fn open(
        alloc: Global,
        backend: &Backend,
        journal: u32,
        hasher: S,
    ) -> Result<Self, AllocError>
        requires { 0 < journal }
        ensures opening { IfOk result (λ desk. desk ≡ opening_desk backend.now journal) }
        ensures stands { IfOk result (λ desk. StandsAt backend.now [] desk) }
    {
        let _servers = backend.servers();
        let journal = Tail::new(alloc, journal as usize)?;
        let core = Core::open(alloc, backend, hasher)?;
        Ok(Desk {
            core,
            journal,
            connections: 0,
            alloc,
        })
    }

    /// The journal alone.
    pub fn into_journal(self) -> Tail<Entry>
        ensures { result ≡ self.journal }
    {
        self.journal
    }
}

impl<S: BuildHasher> Desk<S> {
    /// Takes the event as one step of the backend, and journals it with its reply. It costs what the event costs at the core, and
    /// a few machine instructions.
    ///
    /// Refused when out of memory, as a Serve, a Set, a Snapshot or an Install may be, and as `Worn` (81) exactly where `is_worn` says so;
    /// then nothing has changed. The end of an open connection is never refused.
    pub fn advance(&mut self, mut event: Event) -> Result<Taken, Refused>
        ensures takes { IfOk result (λ taken. Takes self.old event taken.reply self.new) }
        ensures forgotten { IfOk result (λ taken. option_to_list taken.forgotten
            ≡ take (leaving self.old.journal) self.old.journal.entries) }

        // Where it is refused.
        ensures worn { IsErrOf result Refused.Worn ↔ (is_worn_for self.old event ≡ true) }
        ensures memory { IsErrOf result Refused.Memory → may_take_memory event ≡ true }
        ensures err { OnErr result (self.new ≡ self.old) }
    {
        if self.is_worn(&event) {
            return Err(Refused::Worn);
        }
        let (reply, copy) = answer(&mut self.core, self.alloc, &mut event)?;
        self.connections = self.connections + opened_by(&event, &reply) - closed_by(&event, &reply);
        let forgotten = self.journal.push(Entry { event, reply });
        Ok(Taken {
            reply: copy,
            forgotten,
        })
    }

    /// Takes the event as `advance` does, and drops the entry that leaves a full journal.
    pub fn step(&mut self, event: Event) -> Result<Reply, Refused>
        ensures takes { IfOk result (λ reply. Takes self.old event reply self.new) }
        ensures worn { IsErrOf result Refused.Worn ↔ (is_worn_for self.old event ≡ true) }
        ensures memory { IsErrOf result Refused.Memory → may_take_memory event ≡ true }
        ensures err { OnErr result (self.new ≡ self.old) }
    {
        let taken = self.advance(event)?;
        Ok(taken.into_reply())
    }

    /// Takes a sheet, makes a plan for it and installs that, while nobody else gets in: two events in one go, after which the table is
    /// best for the view that it had. It costs a whole planning.
    ///
    /// Refused when out of memory, and as `Worn` (81) exactly where the second event would be; then nothing has changed.
    pub fn plan_now(&mut self) -> Result<Score, Refused>
        ensures plans { IfOk result (λ score. PlansNow self.old score self.new) }
        ensures worn { IsErrOf result Refused.Worn ↔ (is_worn_for_two self.old ≡ true) }
        ensures err { OnErr result (self.new ≡ self.old) }
    {
        let taken = self.advance_by_plan()?;
        Ok(taken.into_score())
    }

    /// Takes both events as `plan_now` does, and hands them out with their replies.
    pub fn advance_by_plan(&mut self) -> Result<TakenPlan, Refused>
        ensures takes { IfOk result (λ taken. TakesPlan self.old taken self.new) }
        ensures worn { IsErrOf result Refused.Worn ↔ (is_worn_for_two self.old ≡ true) }
        ensures err { OnErr result (self.new ≡ self.old) }
    {
        if self.journal.next_number() + 1 + self.connections >= WORN {
            return Err(Refused::Worn);
        }
        let Planned {
            sheet,
            plan,
            score,
            copies,
        } = plan_for(&mut self.core, self.alloc)?;
        let first = keep(&mut self.journal, Event::Snapshot, Reply::Sheet(sheet));
        let second = keep(
            &mut self.journal,
            Event::Install(plan),
            Reply::Installed(score),
        );
        Ok(TakenPlan {
            snapshot: Entry {
                event: Event::Snapshot,
                reply: Reply::Sheet(copies.0),
            },
            install: Entry {
                event: Event::Install(copies.1),
                reply: Reply::Installed(score),
            },
            score,
            forgotten: (first, second),
        })
    }

    /// Whether the event would be refused as `Worn`: the events taken and the connections open are together 2^63 or more, and the
    /// event isn't the end of one of these connections.
    pub fn is_worn(&self, event: &Event) -> bool
        ensures { result ≡ is_worn_for self.now event.now }
    {
        self.journal.next_number() + self.connections >= WORN && !self.ends_one(event)
    }

    /// Whether the event ends a connection that is open.
    fn ends_one(&self, event: &Event) -> bool
        ensures { result ≡ ends_one self.now.shown event.now }
    {
        match event {
            Event::Close(server) => self.core.connections(*server) > 0,
            _ => false,
        }
    }

    /// The version of the view: it grows by one with each event that changes what planners see.
    pub fn version(&self) -> u64
        ensures { result ≡ self.now.shown.version }
    {
        self.core.version()
    }

    /// How many connections are open, at all servers together.
    pub fn open_connections(&self) -> u64
        ensures { result ≡ open_connections self.now.shown }
    {
        self.connections
    }

    /// How many pins there are; 0 if the backend has no table.
    pub fn pins(&self) -> usize
        ensures { result ≡ length self.now.shown.pins }
    {
        self.core.pins()
    }

    /// A copy of the pins, which gives them out in order of last use; of none if the backend has no table. It is no event, and no use
    /// of any pin.
    ///
    /// It costs one pass through the pins as they lie in memory, with a copy of each key, and hashes nothing. Putting them in order
    /// is left to the copy. It allocates what the room lacks for the pins, and memory for the keys that are text. The only error is out
    /// of memory.
    pub fn copy_table(&self, alloc: Global, room: TableRoom) -> Result<TableCopy, AllocError>
        ensures exact { IfOk result (λ copy. copy ≡ self.now.shown.pins) }
    {
        self.core.copy_table(alloc, room)
    }

    /// Copies of the pins, in order of last use, the one that wasn't used for longest first; none where the backend has no table.
    /// It is no event, and no use of any pin.
    ///
    /// They are the rows of `copy_table`, which is what to hold a lock for. Each key is copied twice, and nothing is hashed. It
    /// allocates memory for two lists of the pins and for the keys that are text. The only error is out of memory.
    pub fn table_rows(&self, alloc: Global) -> Result<Vec<TablePin>, AllocError>
        ensures exact { IfOk result (λ rows. rows.items ≡ self.now.shown.pins) }
    {
        let copy = self.copy_table(alloc, TableRoom::empty(alloc))?;
        copy.rows(alloc, &NoRest)
    }

    /// The journal: the newest entries, and how many there were.
    pub fn journal(&self) -> &Tail<Entry>
        ensures { result.now ≡ self.now.journal }
    {
        &self.journal
    }

    /// The number of the first entry that the journal keeps, which is how many it has forgotten.
    pub fn journal_first(&self) -> u64
        ensures { result ≡ self.now.journal.first }
    {
        self.journal.first()
    }

    /// Does nothing: what it says holds of every desk. Some log of a lawful backend leads to what it shows, and its journal is the
    /// end of that log. Each install of the whole log, also one that the journal has forgotten, is stale exactly where the view had
    /// changed, or refused as the check refuses it, or best. A plan for a sheet of the log is never answered Bad.
    pub fn stands_at_a_log(&self)
        ensures log { IsDesk self.now }
        ensures headline { KeepsHeadline self.now }
        ensures none_bad { KeepsNoneBad self.now }
    {
        let _ = &self.connections;
    }
}
