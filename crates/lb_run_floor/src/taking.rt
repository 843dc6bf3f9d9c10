//! Taking seats, and leaving them.
ghost use Rattle.std.specs.Prelude.{◌≡◌, ◌≤◌, length, map, slice_get, IfOk, IfErr, OnErr};
ghost use Rattle.std.specs.Option.{option_copied};
ghost use Rattle.lb_desk_backend.specs.Configured.{OpenInOrder, OpensAt};

use crate::{Desks, Floor, Seating};
use lb_config::BackendConfig;
use lb_desk_ports::Refused;

/// A seat at the desk of the backend at this place. Refused only if there is no backend at the place.
pub fn seat_at<R, D: Seating<R>, G: Drop>(
    rt: &R,
    floor: &Floor<'_, D, G>,
    place: usize,
) -> Result<D::Seat, Refused>
    ensures desk { IfOk result (λ seat. OpensAt floor.now.config.now.backends place (D.Seat.Mover.backend seat)) }
    ensures no_backend { OnErr result (length floor.now.config.now.backends ≤ place) }
{
    floor.desks.seat_at(rt, place)
}

/// A seat at each desk, in the order of the backends. Refused only when out of memory.
pub fn seats<R, D: Seating<R>, G: Drop>(
    rt: &R,
    floor: &Floor<'_, D, G>,
) -> Result<Vec<D::Seat>, Refused>
    ensures desks { IfOk result
        (λ seats. OpenInOrder floor.now.config.now.backends (map D.Seat.Mover.backend seats.items)) }
    ensures memory { IfErr result (λ refused. refused ≡ Refused.Memory) }
{
    floor.desks.seats(rt)
}

/// Takes all seats that a thread leaves.
pub fn leave_all<R, D: Seating<R>, G: Drop>(rt: &R, floor: &Floor<'_, D, G>, seats: Vec<D::Seat>) {
    for seat in seats {
        floor.desks.leave(rt, seat);
    }
}

/// The backend at this place, if there is one.
pub fn backend_at<'a, D: Desks, G: Drop>(
    floor: &Floor<'a, D, G>,
    place: usize,
) -> Option<&'a BackendConfig>
    ensures { option_copied result ≡ slice_get floor.now.config.now.backends place }
{
    floor.config.backends().get(place)
}
