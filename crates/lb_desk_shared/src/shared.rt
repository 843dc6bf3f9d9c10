ghost use Rattle.std.specs.Prelude.{◌≡◌, ◌⊎◌, ⊤, true, false, [], Some, vec_len, IfOk, IfErr, OnErr, IsErrOf};
ghost use Rattle.std.specs.Sync.Mutex.{mutex_guard_value};
ghost use Rattle.lb_desk_ports.specs.Calls.{entry};
ghost use Rattle.lb_desk_ports.specs.Ports.{IfOpened, opening_reply, shut_reply};
ghost use Rattle.lb_desk_shared.specs.Calls.{AddsPlan, AddsStep, IsStepAt, is_of_a_connection};
ghost use Rattle.lb_desk_shared.specs.Closing.{Closes, fault_of};
ghost use Rattle.lb_desk_shared.specs.Desks.{IsCopyOf, Sees};
ghost use Rattle.lb_desk_model.specs.declared.event.Event.TheVariants as event;
ghost use Rattle.lb_desk_step.specs.Desk.{StandsAt, is_worn_for, may_take_memory};
ghost use Rattle.lb_desk_step.specs.Planning.{is_worn_for_two};
ghost use Rattle.lb_desk_tie.specs.Receipts.{AreOf, new_pass, with_receipt};

use crate::closing::{CloseFault, Closing, StillOut};
use crate::journal_copy::JournalCopy;
use crate::naming::Naming;
use crate::receipt::{Receipt, Told};
use crate::replies::{opening_of, shut_of};
use crate::rests::ShortRests;
use crate::slot::Slot;
use crate::tied::TiedDesk;
use lb_desk_model::{Entry, Event};
use lb_desk_ports::{Opening, Refused, Shut};
use lb_desk_step::Desk;
use lb_desk_tie::{Opened, Pass};
use lb_types::ServerId;
use pin_set::{Score, TablePin};
use pin_table::TableRoom;
use std::alloc::{AllocError, Global};
use std::hash::BuildHasher;
use std::marker::Model;
use std::sync::{Mutex, MutexGuard, Wait};
use std::time::Clock;

/// The running desk of one backend, for many threads. Contracts see it as its number, which distinguishes it from a program's
/// other desks.
///
/// Each call but `number` waits for the desk and holds it once: `plan_now` for two steps of the backend, `enter`, `rows` and
/// `entries` for none, and the others for one. An entry that leaves a full journal is dropped after that.
#[derive(Drop)]
pub struct SharedDesk<S: BuildHasher, B: Naming> {
    number: u64,
    lock: Mutex<TiedDesk<S, B>>,
}

impl<S: BuildHasher, B: Naming> Model for SharedDesk<S, B> {
    ghost use Rattle.std.specs.Prelude.{ℕ};

    ghost Value = { ℕ };

    ghost view = { λ d. d.number };
}

impl<S: BuildHasher, B: Naming> SharedDesk<S, B> {
    /// The desk of this number, from one that has taken no event yet.
    pub fn of(opened: Opened<Entry>, number: u64, desk: Desk<S>) -> Self
        requires table { opened ≡ B.table_of number }
        requires opening { StandsAt (B.opening number) [] desk }
        requires size { desk.journal.capacity ≡ B.journal_size number }
        ensures { result ≡ number }
    {
        SharedDesk {
            number,
            lock: Mutex::new(TiedDesk::of(opened, number, desk)),
        }
    }

    /// Which desk it is.
    pub fn number(&self) -> u64
        ensures { result ≡ self.now }
    {
        self.number
    }

    /// A pass for one more caller, with no receipt. It is no event, allocates nothing, and is never refused.
    pub fn enter<R: Wait>(&self, rt: &R) -> Pass<Entry, B>
        ensures pass { result ≡ new_pass self.now }
    {
        self.hold(rt).enter()
    }

    /// Takes the event as one step of the backend, and gives the pass its receipt. It copies no event, and is meant for the path of
    /// a request. It costs what the event costs at `Desk::advance`, a lock, and a few atomic steps. For the opening and the end of a
    /// connection there are `open` and `shut`.
    ///
    /// Refused as `Worn` (81) only at a point of the backend's history at which `Desk::advance` refuses the event so, and when out
    /// of memory only if the event may need some. Then the pass gets no receipt, but a sight of the history at that point.
    pub fn tell<R: Wait>(
        &self,
        rt: &R,
        pass: &mut Pass<Entry, B>,
        event: Event,
    ) -> Result<Told, Refused>
        requires pass { pass.old.keeper ≡ self.now }
        requires event { is_of_a_connection event ≡ false }
        ensures receipt { IfOk result
            (λ told. pass.new ≡ with_receipt pass.old (told.number, entry event told.reply)) }
        ensures step { IfOk result
            (λ told. IsStepAt (B.opening self.now) pass.old.receipts told.number event told.reply) }
        ensures worn { IsErrOf result Refused.Worn → Sees
            (B.opening self.now)
            pass.old
            (λ desk. is_worn_for desk event ≡ true)
            pass.new }
        ensures memory { IsErrOf result Refused.Memory → may_take_memory event ≡ true }
        ensures err { OnErr result (Sees (B.opening self.now) pass.old (λ _. ⊤) pass.new) }
    {
        self.take(rt, pass, event)
    }

    /// Takes the event as `tell` does, whichever it is.
    fn take<R: Wait>(
        &self,
        rt: &R,
        pass: &mut Pass<Entry, B>,
        event: Event,
    ) -> Result<Told, Refused>
        requires { pass.old.keeper ≡ self.now }
        ensures receipt { IfOk result
            (λ told. pass.new ≡ with_receipt pass.old (told.number, entry event told.reply)) }
        ensures step { IfOk result
            (λ told. IsStepAt (B.opening self.now) pass.old.receipts told.number event told.reply) }
        ensures worn { IsErrOf result Refused.Worn → Sees
            (B.opening self.now)
            pass.old
            (λ desk. is_worn_for desk event ≡ true)
            pass.new }
        ensures memory { IsErrOf result Refused.Memory → may_take_memory event ≡ true }
        ensures err { OnErr result (Sees (B.opening self.now) pass.old (λ _. ⊤) pass.new) }
    {
        let mut held = self.hold(rt);
        let (told, forgotten) = held.tell(pass, event)?;
        drop(held);
        drop(forgotten);
        Ok(told)
    }

    /// Takes the event as `tell` does, and hands out its receipt. It costs a copy of the event on top, which is made before the desk
    /// is held. It is refused as `tell` is, and when out of memory for that copy.
    pub fn call<R: Wait>(
        &self,
        rt: &R,
        pass: &mut Pass<Entry, B>,
        event: Event,
    ) -> Result<Receipt, Refused>
        requires pass { pass.old.keeper ≡ self.now }
        requires event { is_of_a_connection event ≡ false }
        ensures receipt { IfOk result (λ receipt. pass.new ≡ with_receipt pass.old receipt) }
        ensures event { IfOk result (λ receipt. receipt.1.event ≡ event) }
        ensures step { IfOk result
            (λ receipt. IsStepAt (B.opening self.now) pass.old.receipts receipt.0 event receipt.1.reply) }
        ensures worn { IsErrOf result Refused.Worn → Sees
            (B.opening self.now)
            pass.old
            (λ desk. is_worn_for desk event ≡ true)
            pass.new }
        ensures err { OnErr result
            ((pass.new ≡ pass.old) ⊎ Sees (B.opening self.now) pass.old (λ _. ⊤) pass.new) }
    {
        let copy = event.clone()?;
        let told = self.tell(rt, pass, event)?;
        Ok(Receipt::of(copy, told))
    }

    /// Opens a connection to the server, at most as many as its `maxconn` says.
    ///
    /// Refused only as `Worn` (81), at a point of the backend's history at which `Desk::advance` refuses it so; it needs no memory.
    pub fn open<R: Wait>(
        &self,
        rt: &R,
        pass: &mut Pass<Entry, B>,
        server: ServerId,
    ) -> Result<Opening<Slot>, Refused>
        requires { pass.old.keeper ≡ self.now }
        ensures step { IfOk result
            (λ opening. AddsStep (B.opening self.now) pass.old (event.Open server) (opening_reply opening) pass.new) }
        ensures refused { IfErr result (λ refused. refused ≡ Refused.Worn) }
        ensures worn { OnErr result (Sees
            (B.opening self.now)
            pass.old
            (λ desk. is_worn_for desk (event.Open server) ≡ true)
            pass.new) }
        ensures desk { IfOpened result (λ slot. slot.desk ≡ self.now) }
        ensures server { IfOpened result (λ slot. slot.server ≡ server) }
    {
        let told = self.take(rt, pass, Event::Open(server))?;
        let Some(opening) = opening_of(&told.reply, self.number, server) else {
            unreachable!();
        };
        Ok(opening)
    }

    /// Ends the connection. The slot is spent, whatever the answer.
    ///
    /// Refused only as `Worn` (81), at a point of the backend's history at which no connection is open at the server: the end of an
    /// open one needs no memory, and an exhausted desk has room for its event.
    pub fn shut<R: Wait>(
        &self,
        rt: &R,
        pass: &mut Pass<Entry, B>,
        slot: Slot,
    ) -> Result<Shut, Refused>
        requires pass { pass.old.keeper ≡ self.now }
        requires slot { slot.desk ≡ self.now }
        ensures step { IfOk result
            (λ shut. AddsStep (B.opening self.now) pass.old (event.Close slot.server) (shut_reply shut) pass.new) }
        ensures refused { IfErr result (λ refused. refused ≡ Refused.Worn) }
        ensures worn { OnErr result (Sees
            (B.opening self.now)
            pass.old
            (λ desk. is_worn_for desk (event.Close slot.server) ≡ true)
            pass.new) }
    {
        let Slot { desk: _, server } = slot;
        let told = self.take(rt, pass, Event::Close(server))?;
        let Some(shut) = shut_of(&told.reply) else {
            unreachable!();
        };
        Ok(shut)
    }

    /// Takes a sheet, makes a plan for it and installs that, all in one hold, so that no plan can go stale. The others wait for as
    /// long as a whole planning takes.
    ///
    /// Refused when out of memory, and as `Worn` (81) only at a point of the backend's history at which the second of the two events
    /// would be. Then the pass gets no receipt, but a sight.
    pub fn plan_now<R: Wait>(&self, rt: &R, pass: &mut Pass<Entry, B>) -> Result<Score, Refused>
        requires { pass.old.keeper ≡ self.now }
        ensures plan { IfOk result (λ score. AddsPlan (B.opening self.now) pass.old score pass.new) }
        ensures worn { IsErrOf result Refused.Worn → Sees
            (B.opening self.now)
            pass.old
            (λ desk. is_worn_for_two desk ≡ true)
            pass.new }
        ensures err { OnErr result (Sees (B.opening self.now) pass.old (λ _. ⊤) pass.new) }
    {
        let mut held = self.hold(rt);
        let taken = held.plan_now(pass)?;
        drop(held);
        Ok(taken.into_score())
    }

    /// Copies of the pins at one moment, in order of last use, the one that wasn't used for longest first. All receipts of the pass
    /// are of events before that moment. It is no event: the pass gets no receipt, but a sight of the history at that moment.
    ///
    /// The others wait for one pass through the pins as they lie in memory, with a copy of each key. They don't wait for the memory that
    /// this needs, nor while the pins are put into order of last use, which takes longer and copies each key once more. It rests for 1 ms
    /// after each 4,096 pins, so that others get the processor. For a moment there is memory for two lists of the pins. The only error
    /// is out of memory.
    pub fn rows<R: Wait + Clock>(
        &self,
        rt: &R,
        pass: &mut Pass<Entry, B>,
        alloc: Global,
    ) -> Result<Vec<TablePin>, AllocError>
        requires { pass.old.keeper ≡ self.now }
        ensures pins { Sees
            (B.opening self.now)
            pass.old
            (λ desk. IfOk result (λ rows. rows.items ≡ desk.shown.pins))
            pass.new }
    {
        let room = self.room(rt, alloc);
        let mut held = self.hold(rt);
        held.see(pass);
        let copy = held.copy_table(alloc, room)?;
        drop(held);
        copy.rows(alloc, &ShortRests { rt })
    }

    /// Memory for a copy of as many pins as there are now, or none if there isn't so much.
    fn room<R: Wait + Clock>(&self, rt: &R, alloc: Global) -> TableRoom {
        let held = self.hold(rt);
        let pins = held.pins();
        drop(held);
        match TableRoom::touched(alloc, pins, &ShortRests { rt }) {
            Ok(room) => room,
            Err(_) => TableRoom::empty(alloc),
        }
    }

    /// A copy of all that the journal keeps at one moment. All receipts of the pass are of events before that moment. It is no event:
    /// the pass gets no receipt, but a sight of the history at that moment.
    ///
    /// The others wait while each entry is copied. The only error is out of memory.
    pub fn entries<R: Wait>(
        &self,
        rt: &R,
        pass: &mut Pass<Entry, B>,
        alloc: Global,
    ) -> Result<JournalCopy, AllocError>
        requires { pass.old.keeper ≡ self.now }
        ensures journal { Sees
            (B.opening self.now)
            pass.old
            (λ desk. IfOk result (λ copy. IsCopyOf (B.journal_size self.now) desk.journal copy))
            pass.new }
    {
        let mut held = self.hold(rt);
        held.see(pass);
        held.entries(alloc)
    }

    /// The desk under the lock, once it is free. No type can say that it has this number, so it is looked at. It always has: a desk of
    /// another number would never come free.
    fn hold<R: Wait>(&self, rt: &R) -> MutexGuard<'_, TiedDesk<S, B>>
        ensures { (mutex_guard_value result).keeper.number ≡ self.now }
    {
        for _ in rt.forever() {
            let held = self.lock.lock(rt);
            if held.number() == self.number {
                return held;
            }
        }
        unreachable!()
    }
}

impl<S: BuildHasher + Drop, B: Naming> SharedDesk<S, B> {
    /// The desk goes under its lock again.
    pub fn of_tied(desk: TiedDesk<S, B>) -> Self
        ensures { result ≡ desk.keeper.number }
    {
        SharedDesk {
            number: desk.number(),
            lock: Mutex::new(desk),
        }
    }

    /// Closes the desk with all passes that it gave out. It costs a few machine instructions a pass, and allocates nothing.
    ///
    /// Refused with 82 if fewer passes come back than were given out, and otherwise with 83 if a connection is open. Then the passes are
    /// handed back as they were, with the desk, which has this number. No type says that, so no clause does. If it isn't refused, no connection
    /// is open, the passes have all receipts, and each of their sights is a beginning of the history; that no pass without a receipt is missing,
    /// no clause outside the crate says.
    pub fn close(self, passes: Vec<Pass<Entry, B>>) -> Result<Closing, StillOut<S, B>>
        requires { AreOf self passes.items }
        ensures closes { IfOk result (λ closing. Closes (B.opening self) passes.items closing) }
        ensures size { IfOk result (λ closing. closing.journal.capacity ≡ B.journal_size self) }
        ensures fault { IfErr result
            (λ out. out.desk.keeper.number ≡ self
            → fault_of out.desk (vec_len passes) ≡ Some out.fault) }
        ensures passes { IfErr result (λ out. out.passes ≡ passes) }
    {
        let SharedDesk { number, lock } = self;
        let desk = lock.into_inner();
        // No run comes here with a desk of another number, see `hold`.
        let fault = if desk.number() == number {
            desk.fault(passes.len())
        } else {
            Some(CloseFault::PassesOut)
        };
        match fault {
            None => Ok(desk.close(passes)),
            Some(fault) => Err(StillOut {
                fault,
                desk,
                passes,
            }),
        }
    }
}
