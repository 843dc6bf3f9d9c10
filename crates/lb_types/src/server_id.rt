ghost use Rattle.std.specs.Prelude.{◌≡◌, ℕ, ◌<◌};
ghost use Rattle.lb_types.specs.declared.limits.TheConstants.{MAX_SERVERS};

use std::marker::Model;

/// A server of a backend, by its place in the configuration's order, counted from 0.
#[derive(Clone, Copy, Debug, PartialEq, Eq, PartialOrd, Ord, Hash)]
pub struct ServerId {
    index: u8,
}

/// Where a pin is: at a server, or nowhere. Nowhere comes first in the order of places.
pub type Place = Option<ServerId>;

impl Model for ServerId {
    ghost Value = { ℕ };

    ghost view = { λ server. server.index };

    ghost invariant = { λ server. server.index < MAX_SERVERS };

    ghost inverse = { λ index. record { index = index } };
}

impl ServerId {
    /// The server at `index`, which is 0 to 127.
    pub fn new(index: u8) -> Self
        requires { index < MAX_SERVERS }
        ensures { result ≡ index }
    {
        ServerId { index }
    }

    /// The server's place in the configuration's order, 0 to 127.
    pub fn index(self) -> usize
        ensures exact { result ≡ self }
        ensures below_limit { result < MAX_SERVERS }
    {
        usize::from(self.index)
    }
}
