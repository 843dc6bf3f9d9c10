//! Random calls of one thread at one desk.

use crate::events::Events;
use lb_desk_evacuate::evacuate;
use lb_desk_ports::{Asked, Mover, OpenGate, Opening, Port, Refused, Shut};
use lb_desk_seat::Seat;
use lb_desk_shared::Naming;
use lb_desk_steer::Steer;
use std::alloc::Global;
use std::hash::BuildHasher;
use std::sync::Wait;
use std::time::Clock;

/// What a thread did at a desk.
#[derive(Clone, Copy, Debug)]
pub(crate) struct Calls {
    pub(crate) made: u64,
    /// How many connections were opened, and how many of them ended as they should.
    pub(crate) opened: u64,
    pub(crate) closed: u64,
}

impl Calls {
    pub(crate) fn none() -> Self {
        Calls {
            made: 0,
            opened: 0,
            closed: 0,
        }
    }

    /// Both together.
    pub(crate) fn and(self, other: Calls) -> Calls {
        Calls {
            made: self.made.saturating_add(other.made),
            opened: self.opened.saturating_add(other.opened),
            closed: self.closed.saturating_add(other.closed),
        }
    }

    fn count(&mut self) {
        self.made = self.made.saturating_add(1);
    }
}

/// A thread at a desk.
#[derive(Drop)]
pub(crate) struct Visitor<'a, S: BuildHasher, B: Naming> {
    seat: Seat<'a, S, B>,
    calls: Calls,
}

impl<'a, S: BuildHasher, B: Naming> Visitor<'a, S, B> {
    pub(crate) fn new(seat: Seat<'a, S, B>) -> Self {
        Visitor {
            seat,
            calls: Calls::none(),
        }
    }

    /// What was done so far.
    pub(crate) fn calls(&self) -> Calls {
        self.calls
    }

    /// The seat, back from the thread.
    pub(crate) fn into_seat(self) -> Seat<'a, S, B> {
        self.seat
    }

    /// One to four calls: a whole request, or one that is none.
    pub(crate) fn visit<R: Wait + Clock>(
        &mut self,
        rt: &R,
        alloc: Global,
        events: &mut Events,
    ) -> Result<(), Refused> {
        if events.dice().is_one_in(2) {
            return self.request(rt, alloc, events);
        }
        self.other_call(rt, alloc, events)
    }

    /// A server is asked for, and a connection to it opened and shut, perhaps with another call between.
    fn request<R: Wait + Clock>(
        &mut self,
        rt: &R,
        alloc: Global,
        events: &mut Events,
    ) -> Result<(), Refused> {
        self.calls.count();
        let asked = self.seat.ask(rt, events.request(alloc)?)?;
        let Asked::Served(server, _) = asked else {
            return Ok(());
        };
        self.calls.count();
        let opening = self.seat.open(rt, server)?;
        let Opening::Opened(slot) = opening else {
            return Ok(());
        };
        self.calls.opened = self.calls.opened.saturating_add(1);
        let other = if events.dice().is_one_in(4) {
            self.other_call(rt, alloc, events)
        } else {
            Ok(())
        };
        self.calls.count();
        if self.seat.shut(rt, slot)? == Shut::Closed {
            self.calls.closed = self.calls.closed.saturating_add(1);
        }
        other
    }

    /// A call that is no request, and sees no connection.
    fn other_call<R: Wait + Clock>(
        &mut self,
        rt: &R,
        alloc: Global,
        events: &mut Events,
    ) -> Result<(), Refused> {
        self.calls.count();
        match events.dice().roll(8) {
            0 => {
                evacuate(rt, alloc, &mut self.seat, &OpenGate, 2)?;
                Ok(())
            }
            1 => {
                self.seat.snapshot(rt)?;
                Ok(())
            }
            2 => {
                self.seat.plan_now(rt)?;
                Ok(())
            }
            3 => {
                let _ = self.seat.rows(rt, alloc)?;
                Ok(())
            }
            4 | 5 => {
                self.seat.command(rt, events.change())?;
                Ok(())
            }
            _ => {
                let ok = !events.dice().is_one_in(3);
                self.seat.check(rt, events.server(), ok)?;
                Ok(())
            }
        }
    }
}
