use lb_types::{Moment, Place};

/// What the table keeps of a pin beside its name.
#[derive(Clone, Copy, Debug, PartialEq, Eq)]
pub struct Held {
    /// Where the pin is.
    pub place: Place,
    /// What it costs to move the pin, 1 to 1000.
    pub cost: u16,
    /// When a request was last served through it.
    pub last_use: Moment,
}
