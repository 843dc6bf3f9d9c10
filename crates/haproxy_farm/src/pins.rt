ghost use Rattle.std.specs.Prelude.{◌≡◌, ◌≤◌, IfOk, length};
ghost use Rattle.lb_types.specs.declared.limits.TheConstants.{MAX_PINS};
ghost use Rattle.haproxy_farm.specs.Farms.{farm_pin, farm_pins, key_of};

use lb_types::{Place, ServerSet};
use pin_set::{Pin, PinId, PinKey};
use std::alloc::{AllocError, Global};
use std::net::Ipv4Addr;

/// A pin for each place.
pub(crate) fn farm_pins(alloc: Global, places: &[Place]) -> Result<Vec<Pin>, AllocError>
    requires { length places.now ≤ MAX_PINS }
    ensures { IfOk result (λ pins. pins.items ≡ farm_pins places.now) }
{
    let mut pins = Vec::with_capacity(alloc, places.len())?;
    for (i, place) in places.iter().enumerate() {
        let pin = farm_pin(i as u32, *place);
        pins.push(pin)?;
    }
    Ok(pins)
}

fn farm_pin(number: u32, place: Place) -> Pin
    ensures { result ≡ farm_pin (number, place) }
{
    Pin {
        id: PinId {
            key: key_of(number),
            want: ServerSet::empty(),
        },
        place,
        cost: 1,
    }
}

fn key_of(number: u32) -> PinKey
    ensures { result ≡ key_of number }
{
    PinKey::Ipv4(Ipv4Addr::from_bits(number))
}
