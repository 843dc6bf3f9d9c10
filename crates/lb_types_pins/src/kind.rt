ghost use Rattle.std.specs.Prelude.{◌≡◌};

use lb_types::{Place, ServerSet};

/// All that a plan of moves knows of a pin. Pins of one kind are interchangeable.
///
/// Kinds are ordered by place, then by permitted set, then by cost.
#[derive(Clone, Copy, Debug, PartialEq, Eq, PartialOrd, Ord, Hash)]
pub struct PinKind {
    /// Where the pin is.
    pub place: Place,
    /// The usable servers that the pin may be at.
    pub permitted: ServerSet,
    /// What it costs to move the pin, 1 to 1000.
    pub cost: u16,
}

/// Pins of one kind, by their number.
#[derive(Clone, Copy, Debug, PartialEq, Eq, Hash)]
pub struct Group {
    pub kind: PinKind,
    /// How many pins, at least 1.
    pub count: u32,
}

/// Pins of one kind that go to one place, which may be the one where they are.
#[derive(Clone, Copy, Debug, PartialEq, Eq, Hash)]
pub struct Row {
    pub kind: PinKind,
    /// Where the pins go.
    pub new_place: Place,
    /// How many pins, at least 1.
    pub count: u32,
}

impl Group {
    ghost use Rattle.lb_types_pins.specs.Kinds.{kind_before};

    /// Whether this group stands before the other in a sheet.
    pub fn is_before(&self, other: &Group) -> bool
        ensures { result ≡ kind_before self.now.kind other.now.kind }
    {
        self.kind < other.kind
    }
}

impl Row {
    ghost use Rattle.lb_types_pins.specs.Kinds.{row_before};

    /// Whether this row stands before the other in a plan: rows are ordered by kind, then by new place.
    pub fn is_before(&self, other: &Row) -> bool
        ensures { result ≡ row_before self.now other.now }
    {
        if self.kind == other.kind {
            self.new_place < other.new_place
        } else {
            self.kind < other.kind
        }
    }
}
