ghost use Rattle.std.specs.Prelude.{◌≡◌, ◌≢◌, ℕ, ◌<◌, ◌&&◌, ◌||◌, ◌==◌, ◌↔◌, true, false, length, IsTrue, IsNone, IfSome};
ghost use Rattle.lb_types.specs.Servers.{has, meet, union, with_server, members};

use crate::ServerId;
use std::marker::Model;

/// A set of servers of one backend. Sets are ordered as the numbers whose bit `i` stands for server `i`.
///
/// Every call is one or two machine instructions.
#[derive(Clone, Copy, Debug, PartialEq, Eq, PartialOrd, Ord, Hash)]
pub struct ServerSet {
    bits: u128,
}

impl Model for ServerSet {
    ghost Value = { ℕ };

    ghost view = { λ set. set.bits };

    ghost inverse = { λ bits. record { bits = bits } };
}

impl ServerSet {
    /// The set that holds no server.
    pub fn empty() -> Self
        ensures none { (server : ℕ) → has result server ≡ false }
        ensures exact { result ≡ 0 }
    {
        ServerSet { bits: 0 }
    }

    /// This set and the server.
    pub fn with(self, server: ServerId) -> Self
        ensures members { (s : ℕ) → has result s ≡ (s == server || has self s) }
        ensures exact { result ≡ with_server self server }
    {
        ServerSet {
            bits: self.bits | (1 << server.index()),
        }
    }

    /// Whether the set holds the server.
    pub fn has(self, server: ServerId) -> bool
        ensures { result ≡ has self server }
    {
        (self.bits >> server.index()) & 1 == 1
    }

    /// The servers that both sets hold.
    pub fn meet(self, other: ServerSet) -> Self
        ensures members { (s : ℕ) → has result s ≡ (has self s && has other s) }
        ensures exact { result ≡ meet self other }
    {
        ServerSet {
            bits: self.bits & other.bits,
        }
    }

    /// The servers that one of the sets holds.
    pub fn union(self, other: ServerSet) -> Self
        ensures members { (s : ℕ) → has result s ≡ (has self s || has other s) }
        ensures exact { result ≡ union self other }
    {
        ServerSet {
            bits: self.bits | other.bits,
        }
    }

    /// Whether the set holds no server.
    pub fn is_empty(self) -> bool
        ensures { IsTrue result ↔ (self ≡ 0) }
    {
        self.bits == 0
    }

    /// How many servers the set holds.
    pub fn len(self) -> usize
        ensures { result ≡ length (members self) }
    {
        self.bits.count_ones() as usize
    }

    /// The set's first server in the configuration's order.
    pub fn first(self) -> Option<ServerId>
        ensures none { IsNone result ↔ (self ≡ 0) }
        ensures member { IfSome result (λ server. has self server ≡ true) }
        ensures least { IfSome result (λ server. (s : ℕ) → s < server → has self s ≡ false) }
    {
        if self.bits == 0 {
            return None;
        }
        Some(ServerId::new(self.bits.trailing_zeros() as u8))
    }
}
