//! Small farms as plain numbers: at most 3 servers and 5 pins.

use dual_cert_plan::Server;
use lb_types::{Name, NameFault, Place, ServerId, ServerSet};
use lb_types_pins::PinKind;
use pin_groups_spread::PlainPin;
use std::alloc::{AllocError, Global};

/// The most servers of a farm.
pub const SERVERS: usize = 3;

/// The most pins of a farm.
pub const PINS: usize = 5;

/// A place, or an option: 0 is none, and i is the server of number i - 1.
pub(crate) type Spot = u8;

/// The kind of a pin: its place, the servers that it may go to as bits, and its cost. Kinds are ordered as in sheets.
#[derive(Clone, Copy, Debug, PartialEq, Eq, PartialOrd, Ord)]
pub(crate) struct SmallPin {
    pub place: Spot,
    pub permitted: u8,
    pub cost: u8,
}

/// Servers, of which those without a capacity aren't usable, and pins whose kinds rise.
#[derive(Debug, Drop)]
pub struct Farm {
    pub(crate) capacities: Vec<Option<u8>>,
    pub(crate) pins: Vec<SmallPin>,
}

impl Farm {
    /// The farm of no server and no pin.
    pub(crate) fn new(alloc: Global) -> Self {
        Farm {
            capacities: Vec::new(alloc),
            pins: Vec::new(alloc),
        }
    }

    /// The servers that are usable, as bits.
    pub(crate) fn usable(&self) -> u8 {
        let mut usable = 0;
        for (capacity, bit) in self.capacities.iter().zip(BITS) {
            if capacity.is_some() {
                usable |= bit;
            }
        }
        usable
    }

    /// What it costs to leave a pin without a server: more than to move all pins.
    pub(crate) fn unplaced_cost(&self) -> u64 {
        self.pins
            .iter()
            .fold(1, |sum: u64, pin| sum.saturating_add(u64::from(pin.cost)))
    }

    /// Whether no server gets more pins than it has room for, where pins go to these spots. One that isn't usable has no room.
    pub(crate) fn has_room(&self, spots: &[Spot]) -> bool {
        self.capacities.iter().enumerate().all(|(server, capacity)| {
            let load = spots
                .iter()
                .filter(|spot| usize::from(**spot) == server.saturating_add(1))
                .count();
            load <= usize::from(capacity.unwrap_or(0))
        })
    }
}

impl SmallPin {
    /// Whether the pin may be left without a server, or sent to this one.
    pub(crate) fn may_go(&self, spot: Spot) -> bool {
        spot == 0 || self.permitted & bit(spot - 1) != 0
    }

    /// The kind as it is in sheets and plans.
    pub(crate) fn kind(&self) -> PinKind {
        PinKind {
            place: place_of(self.place),
            permitted: set_of(self.permitted),
            cost: u16::from(self.cost),
        }
    }

    /// The pin as it is in a view, of a farm with these usable servers: one that may go to all of them wants none.
    pub(crate) fn plain(&self, usable: u8) -> PlainPin {
        let want = if self.permitted == usable {
            0
        } else {
            self.permitted
        };
        PlainPin {
            place: place_of(self.place),
            want: set_of(want),
            cost: u16::from(self.cost),
        }
    }
}

/// The bit of each server.
const BITS: [u8; SERVERS] = [1, 2, 4];

fn bit(server: u8) -> u8 {
    BITS.get(usize::from(server)).copied().unwrap_or(0)
}

/// The servers that the bits stand for.
pub(crate) fn set_of(bits: u8) -> ServerSet {
    let mut set = ServerSet::empty();
    for server in 0..3u8 {
        if bits & bit(server) != 0 {
            set = set.with(ServerId::new(server));
        }
    }
    set
}

/// The place that the spot stands for.
pub(crate) fn place_of(spot: Spot) -> Place {
    match spot {
        1..=3 => Some(ServerId::new(spot - 1)),
        _ => None,
    }
}

/// The servers of a farm as sheets list them.
pub(crate) fn listed(alloc: Global, farm: &Farm) -> Result<Vec<Server>, AllocError> {
    let mut servers = Vec::new(alloc);
    for (name, capacity) in NAMES.iter().zip(&farm.capacities) {
        if let Ok(name) = Name::read(name.as_bytes()) {
            servers.push(Server {
                name,
                capacity: capacity.map(u32::from),
            })?;
        }
    }
    Ok(servers)
}

const NAMES: [&str; SERVERS] = ["aa", "ab", "ac"];
