ghost use Rattle.std.specs.Prelude.{◌≡◌, ◌≤◌, List, Some, length, map, slice_get, IfOk, IfErr, OnErr};
ghost use Rattle.lb_desk_model.specs.Backends.{OpenedBackend};

use lb_desk_ports::{Port, Refused};
use lb_desk_steer::Steer;

/// The desks of a configuration's backends.
pub trait Desks: Drop {
    /// The backends, as their desks opened, in their order.
    ghost opened: { Self → List OpenedBackend };
}

/// Desks at which threads take seats.
pub trait Seating<R>: Desks {
    /// A thread's place at a desk.
    type Seat: Port<R> + Steer<R> + Drop + Send;

    /// A seat at the desk at this place. Refused only if no desk is there.
    fn seat_at(&self, rt: &R, place: usize) -> Result<Self::Seat, Refused>
        ensures desk { IfOk result (λ seat. slice_get (Self.opened self.now) place ≡ Some (Self.Seat.Mover.backend seat)) }
        ensures no_desk { OnErr result (length (Self.opened self.now) ≤ place) };

    /// A seat at each desk, in their order. Refused only when out of memory.
    fn seats(&self, rt: &R) -> Result<Vec<Self::Seat>, Refused>
        ensures desks { IfOk result (λ seats. map Self.Seat.Mover.backend seats.items ≡ Self.opened self.now) }
        ensures memory { IfErr result (λ refused. refused ≡ Refused.Memory) };

    /// Takes a seat that its thread leaves.
    fn leave(&self, rt: &R, seat: Self::Seat);
}
