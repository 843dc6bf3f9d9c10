ghost use Rattle.std.specs.Prelude.{◌≡◌, ◌↔◌, IfOk, IfSome, IsSome};
ghost use Rattle.haproxy_farm.specs.Farms.{CanBeFarm, farm_of};

use crate::can_be::can_be_farm;
use crate::pins::farm_pins;
use lb_types::{Place, ServerSet};
use pin_set::{View, ViewServer};
use std::alloc::{AllocError, Global};

/// The view of a backend with these servers and with an entry at each of these places. The i-th pin is the entry at the i-th
/// place. It wants no server, and a move costs 1.
///
/// None exactly where a place or a usable server is none of the servers, where two servers have one name, or where there
/// are more servers or places than a view may have. The only error is out of memory.
///
/// Each two servers are compared, at most 128 of them. Memory for a copy of the servers and for a pin a place.
pub fn farm_view(
    alloc: Global,
    usable: ServerSet,
    servers: &[ViewServer],
    places: &[Place],
) -> Result<Option<View>, AllocError>
    ensures some { IfOk result (λ found. IsSome found ↔ CanBeFarm usable servers.now places.now) }
    ensures exact { IfOk result (λ found. IfSome found (λ view. view ≡ farm_of usable servers.now places.now)) }
{
    if !can_be_farm(usable, servers, places) {
        return Ok(None);
    }
    let listed = Vec::from_slice(alloc, servers)?;
    let pins = farm_pins(alloc, places)?;
    Ok(Some(View::new(usable, listed, pins)))
}
