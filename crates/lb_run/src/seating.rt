//! The desks that run, as threads take seats at them.
ghost use Rattle.std.specs.Prelude.{◌≡◌, ◌≤◌, Some, length, map, slice_get, IfOk, IfErr, OnErr};
ghost use Rattle.lb_desk_seat.specs.Seats.{SeatView};
ghost use Rattle.lb_run.specs.Runs.{opened_as};

use lb_desk_ports::Refused;
use lb_desk_seat::Seat;
use lb_desk_shared::{Naming, SharedDesk};
use lb_run_desks::PassBox;
use lb_run_floor::{Desks, Seating};
use std::alloc::Global;
use std::hash::RandomState;
use std::sync::Wait;
use std::time::Clock;

/// A thread's place at a desk of this balancer.
pub(crate) type RunSeat<'a, B> = Seat<'a, RandomState, B>;

/// The desks of all backends, and the box for the passes of threads that end.
#[derive(Drop)]
pub(crate) struct RunDesks<'a, B: Naming> {
    pub(crate) alloc: Global,
    /// In the order of the backends.
    pub(crate) desks: &'a [SharedDesk<RandomState, B>],
    pub(crate) passes: &'a PassBox<B>,
}

impl<'a, B: Naming> RunDesks<'a, B> {
    fn enter<R: Wait>(&self, rt: &R, desk: &'a SharedDesk<RandomState, B>) -> RunSeat<'a, B>
        ensures { result.pass.keeper ≡ desk.now }
    {
        Seat::new(self.alloc, desk, desk.enter(rt))
    }

    fn take_seat<R: Wait>(&self, rt: &R, place: usize) -> Result<RunSeat<'a, B>, Refused>
        ensures desk { IfOk result (λ seat. slice_get self.now.desks.now place ≡ Some seat.pass.keeper) }
        ensures no_desk { OnErr result (length self.now.desks.now ≤ place) }
    {
        let Some(desk) = self.desks.get(place) else {
            return Err(Refused::Memory);
        };
        Ok(self.enter(rt, desk))
    }

    fn take_seats<R: Wait>(&self, rt: &R) -> Result<Vec<RunSeat<'a, B>>, Refused>
        ensures desks { IfOk result
            (λ seats. map (λ (seat : SeatView). seat.pass.keeper) seats.items ≡ self.now.desks.now) }
        ensures memory { IfErr result (λ refused. refused ≡ Refused.Memory) }
    {
        let mut seats = Vec::with_capacity(self.alloc, self.desks.len())?;
        for desk in self.desks {
            seats.push(self.enter(rt, desk))?;
        }
        Ok(seats)
    }
}

impl<B: Naming> Desks for RunDesks<'_, B> {
    ghost opened = { λ run. map (opened_as B.opening B.journal_size) run.desks.now };
}

impl<'a, R: Wait + Clock, B: Naming + Send + Sync> Seating<R> for RunDesks<'a, B> {
    type Seat = RunSeat<'a, B>;

    fn seat_at(&self, rt: &R, place: usize) -> Result<RunSeat<'a, B>, Refused> {
        self.take_seat(rt, place)
    }

    fn seats(&self, rt: &R) -> Result<Vec<RunSeat<'a, B>>, Refused> {
        self.take_seats(rt)
    }

    fn leave(&self, rt: &R, seat: RunSeat<'a, B>) {
        self.passes.hand_in(rt, seat.into_pass());
    }
}
