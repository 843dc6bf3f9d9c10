ghost use Rattle.std.specs.Prelude.{◌≡◌, ◌↔◌, IsTrue};

use crate::PinKey;
use lb_types::{Place, ServerSet};

/// The name of a pin: a table has at most one pin of each name.
#[derive(Clone, Debug, Drop, PartialEq, Eq, Hash)]
pub struct PinId {
    pub key: PinKey,
    /// The servers that the matching `use-server` rules named when the pin was made.
    pub want: ServerSet,
}

impl PinId {
    /// Whether the other name is this one. It is what `==` says, as `specs/Names.antt` defines it.
    pub fn is_same(&self, other: &PinId) -> bool
        ensures { IsTrue result ↔ (self.now ≡ other.now) }
    {
        self == other
    }
}

/// A pin as a view lists it.
#[derive(Clone, Debug, Drop, PartialEq, Eq)]
pub struct Pin {
    pub id: PinId,
    /// Where the pin is.
    pub place: Place,
    /// What it costs to move the pin, 1 to 1000.
    pub cost: u16,
}
