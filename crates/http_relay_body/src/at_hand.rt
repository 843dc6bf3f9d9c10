ghost use Rattle.std.specs.Prelude.{◌≡◌, ◌+◌, ◌<◌, ◌≤◌, nat_eq, ℕ, List, [], length, IfOk, OnErr};
ghost use Rattle.http_relay_wire.specs.Wires.{moved};
ghost use Rattle.http_relay_wire.specs.Faults.{after_read};
ghost use Rattle.http_relay_body.specs.Moves.{Taken, HasEnded};

use http_relay_wire::{Wire, WireFault};
use std::marker::Model;

/// The client's bytes that came with the head and were not taken yet.
#[derive(Debug, Drop)]
pub(crate) struct AtHand<'a> {
    bytes: &'a [u8],
}

impl<'a> Model for AtHand<'a> {
    ghost Value = { List ℕ };

    ghost view = { λ at_hand. at_hand.bytes.now };
}

impl<'a> AtHand<'a> {
    /// All of these bytes are at hand.
    pub(crate) fn new(bytes: &'a [u8]) -> Self
        ensures { result ≡ bytes.now }
    {
        AtHand { bytes }
    }

    /// Whether none is at hand.
    pub(crate) fn is_empty(&self) -> bool
        ensures { result ≡ nat_eq (length self.now) 0 }
    {
        self.bytes.is_empty()
    }

    /// Takes the client's next bytes into the front of `room`: those at hand, and when there is none, those that one read gives.
    /// None come only where the client has ended, and a fault only where none is at hand.
    pub(crate) fn take<W: Wire>(
        &mut self,
        client: &mut W,
        room: &mut [u8],
    ) -> Result<usize, WireFault>
        requires { 0 < length room.old }
        ensures within { IfOk result (λ count. count ≤ length room.new) }
        ensures taken { Taken self.old self.new (W.reading client.old).unread (W.reading client.new).unread (moved result room.new) }
        ensures ended { IfOk result (λ count. count ≡ 0 → HasEnded self.new (W.reading client.new)) }
        ensures err { OnErr result (self.new ≡ []) }
        ensures fewer { IfOk result (λ _. length self.new + (W.reading client.new).left < length self.old + (W.reading client.old).left) }
        ensures faults { W.faults client.new ≡ after_read result (W.faults client.old) }
        ensures written { W.written client.new ≡ W.written client.old }
    {
        if self.bytes.is_empty() {
            return client.read(room);
        }
        let count = self.bytes.len().min(room.len());
        room[..count].copy_from_slice(&self.bytes[..count]);
        self.bytes = &self.bytes[count..];
        Ok(count)
    }
}
