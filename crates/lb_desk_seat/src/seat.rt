ghost use Rattle.std.specs.Prelude.{◌≡◌, false, [], ◌∷◌, IfOk, OnErr};
ghost use Rattle.lb_desk_ports.specs.Calls.{after_call, entry};
ghost use Rattle.lb_desk_seat.specs.Replies.{Answers};
ghost use Rattle.lb_desk_seat.specs.Seats.{Adds, KeepsEntries, new_seat, with_refusals};
ghost use Rattle.lb_desk_shared.specs.Calls.{AddsStep, is_of_a_connection};
ghost use Rattle.lb_desk_steer.specs.Steering.{KeepsSights};

use lb_desk_model::{Entry, Event, Reply};
use lb_desk_ports::Refused;
use lb_desk_shared::{Naming, SharedDesk};
use lb_desk_tie::Pass;
use std::alloc::Global;
use std::hash::BuildHasher;
use std::marker::Model;
use std::sync::Wait;

/// One thread's place at a shared desk: the desk, lent, and the thread's pass. Contracts see the pass, how many calls were refused,
/// and how often it was asked to plan while all others wait.
///
/// Each call waits for the desk and holds it once, or twice where it lets pins expire first: between the two holds others may get
/// in. No call keeps the desk.
#[derive(Drop)]
pub struct Seat<'a, S: BuildHasher, B: Naming> {
    pub(crate) desk: &'a SharedDesk<S, B>,
    pub(crate) alloc: Global,
    pub(crate) pass: Pass<Entry, B>,
    pub(crate) refusals: u64,
    pub(crate) planned_now: u64,
}

impl<'a, S: BuildHasher, B: Naming> Model for Seat<'a, S, B> {
    ghost use Rattle.std.specs.Prelude.{◌≡◌};
    ghost use Rattle.lb_desk_seat.specs.Seats.{SeatView, seat_view};

    ghost Value = { SeatView };

    ghost view = { λ seat. seat_view seat.pass seat.refusals seat.planned_now };

    ghost invariant = { λ seat. seat.pass.keeper ≡ seat.desk.now };
}

impl<'a, S: BuildHasher, B: Naming> Seat<'a, S, B> {
    /// A seat at the desk, with a pass of that desk. It allocates nothing; `alloc` gives memory for the plans that it hands in.
    pub fn new(alloc: Global, desk: &'a SharedDesk<S, B>, pass: Pass<Entry, B>) -> Self
        requires { pass.keeper ≡ desk.now }
        ensures { result ≡ new_seat pass }
    {
        Seat {
            desk,
            alloc,
            pass,
            refusals: 0,
            planned_now: 0,
        }
    }

    /// The pass, with the receipts of all calls. The desk can't be closed without it.
    pub fn into_pass(self) -> Pass<Entry, B>
        ensures { result ≡ self.entry.pass }
    {
        self.pass
    }

    /// How many calls were refused. A count that has reached 2^64 - 1 stays there.
    pub fn refusals(&self) -> u64
        ensures { result ≡ self.now.refusals }
    {
        self.refusals
    }

    /// How often it was asked to plan while all others wait, refused calls included. A count that has reached 2^64 - 1 stays there.
    pub fn planned_now(&self) -> u64
        ensures { result ≡ self.now.planned_now }
    {
        self.planned_now
    }

    /// Takes the event to the desk. A refusal isn't counted here.
    pub(crate) fn tell<R: Wait>(&mut self, rt: &R, event: Event) -> Result<Reply, Refused>
        requires { is_of_a_connection event ≡ false }
        ensures adds { IfOk result (λ reply. Adds self.old self.new (entry event reply ∷ [])) }
        ensures step { IfOk result
            (λ reply. AddsStep (B.opening self.old.pass.keeper) self.old.pass event reply self.new.pass) }
        ensures fits { IfOk result (λ reply. Answers event reply) }
        ensures err { OnErr result (KeepsEntries self.old self.new) }
        ensures keeper { self.new.pass.keeper ≡ self.old.pass.keeper }
        ensures sights { KeepsSights self.old.pass.sights self.new.pass.sights }
    {
        let told = self.desk.tell(rt, &mut self.pass, event)?;
        Ok(told.reply)
    }

    /// Counts the call if it was refused.
    pub(crate) fn count<T>(&mut self, answer: &Result<T, Refused>)
        ensures { self.new ≡ with_refusals self.old (after_call answer.now self.old.refusals) }
    {
        if let Err(_) = answer {
            self.refusals = self.refusals.saturating_add(1);
        }
    }
}
