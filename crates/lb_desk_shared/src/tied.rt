ghost use Rattle.std.specs.Prelude.{◌≡◌, ◌+◌, ◌↔◌, ⊤, true, [], None, Some, length, vec_len, IfOk, OnErr, IsErrOf};
ghost use Rattle.lb_desk_ports.specs.Calls.{entry};
ghost use Rattle.lb_desk_shared.specs.Calls.{AddsPlan, IsStepAt};
ghost use Rattle.lb_desk_shared.specs.Closing.{Closes, fault_of};
ghost use Rattle.lb_desk_shared.specs.Desks.{Sees, SeesDesk};
ghost use Rattle.lb_desk_step.specs.Desk.{StandsAt, Takes, is_worn_for, may_take_memory};
ghost use Rattle.lb_desk_step.specs.Planning.{TakesPlan, is_worn_for_two};
ghost use Rattle.lb_desk_tie.specs.Receipts.{AreOf, new_keeper, new_pass, with_entry, with_pass, with_receipt};

use crate::closing::{CloseFault, Closing};
use crate::journal_copy::JournalCopy;
use crate::naming::Naming;
use crate::receipt::Told;
use lb_desk_model::{Entry, Event};
use lb_desk_ports::Refused;
use lb_desk_step::{Desk, Taken, TakenPlan};
use lb_desk_tie::{Keeper, Opened, Pass};
use pin_table::{TableCopy, TableRoom};
use std::alloc::{AllocError, Global};
use std::hash::BuildHasher;
use std::marker::Model;

/// What lies under the lock of a `SharedDesk`: a desk, and the keeper of its receipts, whose history is that of the desk. Only
/// `SharedDesk::close` hands one out.
#[derive(Drop)]
pub struct TiedDesk<S: BuildHasher, B: Naming> {
    desk: Desk<S>,
    keeper: Keeper<Entry, B>,
}

impl<S: BuildHasher, B: Naming> Model for TiedDesk<S, B> {
    ghost use Rattle.std.specs.Prelude.{◌≡◌};
    ghost use Rattle.lb_desk_shared.specs.Desks.{TiedView};
    ghost use Rattle.lb_desk_step.specs.Desk.{StandsAt};

    ghost Value = { TiedView };

    ghost view = { λ t. record { desk = t.desk; keeper = t.keeper } };

    ghost invariant = { λ t. StandsAt (B.opening t.keeper.number) t.keeper.history t.desk
        × (t.desk.journal.capacity ≡ B.journal_size t.keeper.number) };
}

impl<S: BuildHasher, B: Naming> TiedDesk<S, B> {
    /// The desk of this number, which has taken no event yet.
    pub(crate) fn of(opened: Opened<Entry>, number: u64, desk: Desk<S>) -> Self
        requires table { opened ≡ B.table_of number }
        requires opening { StandsAt (B.opening number) [] desk }
        requires size { desk.journal.capacity ≡ B.journal_size number }
        ensures desk { result.desk ≡ desk }
        ensures keeper { result.keeper ≡ new_keeper number }
    {
        TiedDesk {
            desk,
            keeper: opened.named::<B>(number),
        }
    }

    /// Which desk it is.
    pub fn number(&self) -> u64
        ensures { result ≡ self.now.keeper.number }
    {
        self.keeper.number()
    }

    /// A new pass, with no receipt.
    pub(crate) fn enter(&mut self) -> Pass<Entry, B>
        ensures pass { result ≡ new_pass self.old.keeper.number }
        ensures keeper { self.new.keeper ≡ with_pass self.old.keeper }
        ensures desk { self.new.desk ≡ self.old.desk }
    {
        self.keeper.enter()
    }

    /// Takes the event as one step of the desk, and gives the pass its receipt. The entry that leaves a full journal is handed
    /// out.
    pub(crate) fn tell(
        &mut self,
        pass: &mut Pass<Entry, B>,
        event: Event,
    ) -> Result<(Told, Option<Entry>), Refused>
        requires { pass.old.keeper ≡ self.old.keeper.number }
        ensures takes { IfOk result (λ answer. Takes self.old.desk event answer.0.reply self.new.desk) }
        ensures number { IfOk result (λ answer. answer.0.number ≡ length self.old.keeper.history) }
        ensures history { IfOk result
            (λ answer. self.new.keeper ≡ with_entry self.old.keeper (entry event answer.0.reply)) }
        ensures receipt { IfOk result
            (λ answer. pass.new
            ≡ with_receipt pass.old (answer.0.number, entry event answer.0.reply)) }
        ensures step { IfOk result
            (λ answer. IsStepAt
            (B.opening self.old.keeper.number)
            pass.old.receipts
            answer.0.number
            event
            answer.0.reply) }

        // Where it is refused.
        ensures worn { IsErrOf result Refused.Worn ↔ (is_worn_for self.old.desk event ≡ true) }
        ensures memory { IsErrOf result Refused.Memory → may_take_memory event ≡ true }
        ensures same { OnErr result (self.new ≡ self.old) }
        ensures err { OnErr result (Sees (B.opening self.old.keeper.number) pass.old (λ _. ⊤) pass.new) }
        ensures worn_at { IsErrOf result Refused.Worn → Sees
            (B.opening self.old.keeper.number)
            pass.old
            (λ desk. is_worn_for desk event ≡ true)
            pass.new }
    {
        self.desk.stands_at_a_log();
        let Taken { reply, forgotten } = match self.desk.advance(event) {
            Ok(taken) => taken,
            Err(refused) => {
                self.keeper.see(pass);
                return Err(refused);
            }
        };
        let Some(newest) = self.desk.journal().last() else {
            unreachable!();
        };
        let number = self.keeper.record(pass, newest);
        Ok((Told { number, reply }, forgotten))
    }

    /// Plans as two steps of the desk, and gives the pass the receipts of both.
    pub(crate) fn plan_now(&mut self, pass: &mut Pass<Entry, B>) -> Result<TakenPlan, Refused>
        requires { pass.old.keeper ≡ self.old.keeper.number }
        ensures takes { IfOk result (λ taken. TakesPlan self.old.desk taken self.new.desk) }
        ensures history { IfOk result
            (λ taken. self.new.keeper
            ≡ with_entry (with_entry self.old.keeper taken.snapshot) taken.install) }
        ensures receipts { IfOk result
            (λ taken. pass.new
            ≡ with_receipt
            (with_receipt
            pass.old
            (length self.old.keeper.history, taken.snapshot))
            (length self.old.keeper.history + 1, taken.install)) }
        ensures plan { IfOk result
            (λ taken. AddsPlan (B.opening self.old.keeper.number) pass.old taken.score pass.new) }

        // Where it is refused.
        ensures worn { IsErrOf result Refused.Worn ↔ (is_worn_for_two self.old.desk ≡ true) }
        ensures same { OnErr result (self.new ≡ self.old) }
        ensures err { OnErr result (Sees (B.opening self.old.keeper.number) pass.old (λ _. ⊤) pass.new) }
        ensures worn_at { IsErrOf result Refused.Worn → Sees
            (B.opening self.old.keeper.number)
            pass.old
            (λ desk. is_worn_for_two desk ≡ true)
            pass.new }
    {
        self.desk.stands_at_a_log();
        let taken = match self.desk.advance_by_plan() {
            Ok(taken) => taken,
            Err(refused) => {
                self.keeper.see(pass);
                return Err(refused);
            }
        };
        self.keeper.record(pass, &taken.snapshot);
        self.keeper.record(pass, &taken.install);
        Ok(taken)
    }

    /// The pass gets a sight of the history that the desk stands at the end of, in which all its receipts are. The journal has the size
    /// with which it opened. At run time nothing changes.
    pub(crate) fn see(&mut self, pass: &mut Pass<Entry, B>)
        requires { pass.old.keeper ≡ self.old.keeper.number }
        ensures same { self.new ≡ self.old }
        ensures sees { SeesDesk (B.opening self.old.keeper.number) pass.old self.old.desk pass.new }
        ensures size { self.old.desk.journal.capacity ≡ B.journal_size self.old.keeper.number }
    {
        self.keeper.see(pass);
    }

    /// How many pins there are.
    pub(crate) fn pins(&self) -> usize {
        self.desk.pins()
    }

    /// A copy of the pins, which gives them out in order of last use.
    pub(crate) fn copy_table(&self, alloc: Global, room: TableRoom) -> Result<TableCopy, AllocError>
        ensures { IfOk result (λ copy. copy ≡ self.now.desk.shown.pins) }
    {
        self.desk.copy_table(alloc, room)
    }

    /// A copy of the journal.
    pub(crate) fn entries(&self, alloc: Global) -> Result<JournalCopy, AllocError>
        ensures first { IfOk result (λ copy. copy.first ≡ self.now.desk.journal.first) }
        ensures entries { IfOk result (λ copy. copy.entries.items ≡ self.now.desk.journal.entries) }
    {
        JournalCopy::of(alloc, self.desk.journal())
    }

    /// Why it can't be closed with so many passes, if it can't.
    pub(crate) fn fault(&self, passes: usize) -> Option<CloseFault>
        ensures { result ≡ fault_of self.now passes }
    {
        if self.keeper.lacks(passes) {
            Some(CloseFault::PassesOut)
        } else if self.desk.open_connections() > 0 {
            Some(CloseFault::SlotsOut)
        } else {
            None
        }
    }
}

impl<S: BuildHasher + Drop, B: Naming> TiedDesk<S, B> {
    /// Closes the desk, once nothing speaks against it: all passes come back, and the journal is left.
    pub(crate) fn close(self, passes: Vec<Pass<Entry, B>>) -> Closing
        requires own { AreOf self.keeper.number passes.items }
        requires may { fault_of self (vec_len passes) ≡ None }
        ensures closes { Closes (B.opening self.keeper.number) passes.items result }
        ensures size { result.journal.capacity ≡ B.journal_size self.keeper.number }
    {
        self.desk.stands_at_a_log();
        let TiedDesk { desk, keeper } = self;
        Closing {
            rising: keeper.settle(passes),
            journal: desk.into_journal(),
        }
    }
}
