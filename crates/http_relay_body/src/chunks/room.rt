ghost use Rattle.std.specs.Prelude.{◌≡◌, ◌+◌, ◌-◌, ◌<◌, ◌≤◌, nat_le, [], ◌++◌, length, take, drop, OnOk, OnErr};
ghost use Rattle.std.specs.Io.KnownBytes.{append_known};
ghost use Rattle.http_relay_wire.specs.Wires.{AppendsBeginning};
ghost use Rattle.http_relay_wire.specs.declared.fault.FaultCounts.{FaultCounts};
ghost use Rattle.http_relay_body.specs.Moves.{IsServerFault, client_faults, server_faults};
ghost use Rattle.http_relay_body.specs.Rooms.{stand, Fetched, Took, TookBehind};

use crate::at_hand::AtHand;
use crate::fault::BodyFault;
use crate::length::send;
use http_relay_wire::Wire;
use std::marker::Model;

/// The bytes of the room that a chunked body goes through.
pub(crate) const ROOM: usize = 16384;

/// The bytes of a chunked body between the client and the server: those that were judged and wait to go out, and after them those
/// that were taken ahead.
#[derive(Drop)]
pub(crate) struct Room {
    bytes: [u8; ROOM],
    judged: usize,
    filled: usize,
}

impl Model for Room {
    ghost use Rattle.std.specs.Prelude.{◌≤◌, take, drop};
    ghost use Rattle.http_relay_body.specs.Rooms.{RoomView};

    ghost Value = { RoomView };

    ghost view = { λ room. record {
      judged = take room.judged (take room.filled room.bytes);
      ahead = drop room.judged (take room.filled room.bytes);
    } };

    ghost invariant = { λ room. (room.judged ≤ room.filled) × (room.filled ≤ 16384) };
}

impl Room {
    /// An empty room.
    pub(crate) fn new() -> Self
        ensures { result ≡ record { judged = []; ahead = [] } }
    {
        Room {
            bytes: [0; ROOM],
            judged: 0,
            filled: 0,
        }
    }

    /// The bytes that were taken and not judged.
    pub(crate) fn ahead(&self) -> &[u8]
        ensures { result.now ≡ self.now.ahead }
    {
        &self.bytes[..self.filled][self.judged..]
    }

    /// Judges so many of the bytes ahead.
    pub(crate) fn judge(&mut self, count: usize)
        requires { count ≤ length self.old.ahead }
        ensures { self.new ≡ record { judged = self.old.judged ++ take count self.old.ahead; ahead = drop count self.old.ahead } }
    {
        self.judged += count;
    }

    /// Writes to the server what was judged.
    pub(crate) fn send_judged<S: Wire>(&mut self, server: &mut S) -> Result<(), BodyFault>
        ensures ok { OnOk result (S.written server.new ≡ append_known (S.written server.old) self.old.judged) }
        ensures emptied { OnOk result (self.new ≡ record { judged = []; ahead = self.old.ahead }) }
        ensures err { OnErr result (AppendsBeginning (S.written server.old) (S.written server.new) self.old.judged) }
        ensures faults { S.faults server.new ≡ server_faults result (S.faults server.old) }
        ensures reading { S.reading server.new ≡ S.reading server.old }

        // Its faults are the server's.
        ensures cause { IsServerFault result }
        ensures client { (counts : FaultCounts) → client_faults result counts ≡ counts }
    {
        send(server, &self.bytes[..self.filled][..self.judged])?;
        shift(&mut self.bytes, self.judged, self.filled);
        self.filled -= self.judged;
        self.judged = 0;
        Ok(())
    }

    /// Takes at most so many of the client's next bytes, of those at hand, and when there is none by one read. What was judged goes
    /// out before that read, so that it never waits for the client.
    pub(crate) fn fetch<C: Wire, S: Wire>(
        &mut self,
        at_hand: &mut AtHand<'_>,
        client: &mut C,
        server: &mut S,
        most: usize,
    ) -> Result<(), BodyFault>
        requires most { 0 < most }
        requires room { length self.old.ahead < ROOM }
        ensures fetched { Fetched most (stand at_hand.old (C.reading client.old) (S.written server.old) self.old)
            (stand at_hand.new (C.reading client.new) (S.written server.new) self.new) result }
        ensures client { C.faults client.new ≡ client_faults result (C.faults client.old) }
        ensures server { S.faults server.new ≡ server_faults result (S.faults server.old) }
        ensures client_written { C.written client.new ≡ C.written client.old }
        ensures server_reading { S.reading server.new ≡ S.reading server.old }
    {
        if at_hand.is_empty() || self.is_full() {
            self.send_judged(server)?;
        }
        self.take(at_hand, client, most)
    }

    /// Whether there is no room for a byte more.
    fn is_full(&self) -> bool
        ensures { result ≡ nat_le ROOM (length self.now.judged + length self.now.ahead) }
    {
        self.filled == ROOM
    }

    /// Takes at most so many of the client's next bytes.
    fn take<C: Wire>(
        &mut self,
        at_hand: &mut AtHand<'_>,
        client: &mut C,
        most: usize,
    ) -> Result<(), BodyFault>
        requires most { 0 < most }
        requires room { length self.old.judged + length self.old.ahead < ROOM }
        ensures took { Took most at_hand.old at_hand.new (C.reading client.old) (C.reading client.new) self.old self.new result }
        ensures faults { C.faults client.new ≡ client_faults result (C.faults client.old) }
        ensures written { C.written client.new ≡ C.written client.old }

        // Its faults are the client's.
        ensures server { (counts : FaultCounts) → server_faults result counts ≡ counts }
    {
        let count = take_behind(at_hand, client, &mut self.bytes, self.filled, most)?;
        self.filled += count;
        Ok(())
    }
}

/// Takes at most so many of the client's next bytes after those that fill the front, and answers how many these were.
fn take_behind<C: Wire>(
    at_hand: &mut AtHand<'_>,
    client: &mut C,
    bytes: &mut [u8],
    filled: usize,
    most: usize,
) -> Result<usize, BodyFault>
    requires most { 0 < most }
    requires room { filled < length bytes.old }
    ensures len { length bytes.new ≡ length bytes.old }
    ensures took { TookBehind filled most at_hand.old at_hand.new (C.reading client.old) (C.reading client.new) bytes.old bytes.new result }
    ensures faults { C.faults client.new ≡ client_faults result (C.faults client.old) }
    ensures written { C.written client.new ≡ C.written client.old }

    // Its faults are the client's.
    ensures server { (counts : FaultCounts) → server_faults result counts ≡ counts }
{
    let end = bytes.len().min(filled.saturating_add(most));
    match at_hand.take(client, &mut bytes[filled..end]) {
        Ok(0) => Err(BodyFault::Truncated),
        Ok(count) => Ok(count),
        Err(fault) => Err(BodyFault::Client(fault)),
    }
}

/// Moves the bytes from this place on, of so many, to the front. That costs nothing where they stand there.
fn shift(bytes: &mut [u8], from: usize, filled: usize)
    requires within { (from ≤ filled) × (filled ≤ length bytes.old) }
    ensures len { length bytes.new ≡ length bytes.old }
    ensures front { take (filled - from) bytes.new ≡ drop from (take filled bytes.old) }
{
    if from == 0 {
        return;
    }
    bytes.copy_within(from..filled, 0);
}
