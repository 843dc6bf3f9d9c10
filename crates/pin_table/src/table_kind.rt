use crate::Held;
use lb_types::{Place, ServerSet};
use pin_set::PinId;

/// What the table counts its pins by. Which of the wanted servers are usable makes no difference, so that what happens to a server
/// changes no count.
///
/// Kinds are ordered by place, then by wanted servers, then by cost.
#[derive(Clone, Copy, Debug, PartialEq, Eq, PartialOrd, Ord, Hash)]
pub struct TableKind {
    /// Where the pin is.
    pub place: Place,
    /// The servers that the matching `use-server` rules named when the pin was made.
    pub want: ServerSet,
    /// What it costs to move the pin, 1 to 1000.
    pub cost: u16,
}

impl TableKind {
    ghost use Rattle.std.specs.Prelude.{◌≡◌};
    ghost use Rattle.pin_table.specs.Kinds.{kind_of};
    ghost use Rattle.pin_table.specs.Pins.{held_pin};

    /// The kind of the pin of this name.
    pub(crate) fn of(name: &PinId, held: &Held) -> Self
        ensures { result ≡ kind_of (held_pin name.now held.now) }
    {
        TableKind {
            place: held.place,
            want: name.want,
            cost: held.cost,
        }
    }
}
