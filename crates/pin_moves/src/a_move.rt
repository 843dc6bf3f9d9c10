use lb_types::{Place, ServerSet};
use lb_types_pins::PinKind;

/// Pins of one place, wanted servers and cost that go to one place, which may be the one where they are.
#[derive(Clone, Copy, Debug, PartialEq, Eq, Hash)]
pub struct Move {
    /// Where the pins are.
    pub place: Place,
    /// The servers that they want.
    pub want: ServerSet,
    /// What it costs to move one of them, 1 to 1000.
    pub cost: u16,
    /// Where they go.
    pub to: Place,
    /// How many pins, at least 1.
    pub count: u32,
}

impl Move {
    ghost use Rattle.std.specs.Prelude.{◌≡◌, ◌&&◌, ◌||◌, ◌==◌};
    ghost use Rattle.lb_types_pins.specs.Kinds.{kind_before, same_kind};
    ghost use Rattle.pin_moves.specs.Moves.{moved_pins};

    /// Whether it stands before all that is left for these pins. Of them the permitted servers are those that they want.
    pub(crate) fn is_passed(&self, pins: &PinKind) -> bool
        ensures { result ≡ (kind_before (moved_pins self.now) pins.now
            || (same_kind (moved_pins self.now) pins.now && self.now.count == 0)) }
    {
        let own = PinKind {
            place: self.place,
            permitted: self.want,
            cost: self.cost,
        };
        own < *pins || own == *pins && self.count == 0
    }
}
