//! Names, servers and settings of tests.
ghost use Rattle.std.specs.Prelude.{◌≤◌};
ghost use Rattle.lb_types.specs.declared.limits.TheConstants.{MAX_PINS};

use lb_types::{ServerId, ServerSet, TableSettings};
use pin_set::{PinId, PinKey};
use std::net::Ipv4Addr;

/// The name of a pin by its number. A pin of an odd number wants server 1.
pub(crate) fn name_of(number: u32) -> PinId {
    PinId {
        key: PinKey::Ipv4(Ipv4Addr::from_bits(number)),
        want: want_of(number),
    }
}

pub(crate) fn want_of(number: u32) -> ServerSet {
    let none = ServerSet::empty();
    if number % 2 == 1 {
        none.with(ServerId::new(1))
    } else {
        none
    }
}

/// What it costs to move the pin of this number.
pub(crate) fn cost_of(number: u32) -> u16 {
    (number % 3) as u16 + 1
}

pub(crate) fn settings(size: u32, no_purge: bool) -> TableSettings
    requires from { 1 ≤ size }
    requires to { size ≤ MAX_PINS }
{
    TableSettings {
        size,
        expire: None,
        no_purge,
    }
}
