ghost use Rattle.std.specs.Prelude.{◌≡◌, ℕ};

use std::marker::Model;

/// A moment of the balancer's clock, in whole milliseconds since a start that the caller chose.
#[derive(Clone, Copy, Debug, PartialEq, Eq, PartialOrd, Ord, Hash)]
pub struct Moment {
    millis: u64,
}

impl Model for Moment {
    ghost Value = { ℕ };

    ghost view = { λ moment. moment.millis };

    ghost inverse = { λ millis. record { millis = millis } };
}

impl Moment {
    /// The moment that is `millis` milliseconds after the start.
    pub fn from_millis(millis: u64) -> Self
        ensures { result ≡ millis }
    {
        Moment { millis }
    }

    /// The milliseconds since the start.
    pub fn as_millis(self) -> u64
        ensures { result ≡ self }
    {
        self.millis
    }
}
