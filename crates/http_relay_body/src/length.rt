ghost use Rattle.std.specs.Prelude.{◌≡◌, ◌+◌, ◌<◌, ◌≤◌, ℕ, length, OnOk, OnErr, IfOk};
ghost use Rattle.std.specs.Io.KnownBytes.{append_known};
ghost use Rattle.http_relay_wire.specs.Wires.{AppendsBeginning};
ghost use Rattle.http_relay_wire.specs.declared.fault.FaultCounts.{FaultCounts};
ghost use Rattle.http_relay_body.specs.Moves.{Moved, IsLong, IsSome, IsServerFault, client_faults, server_faults};

use crate::at_hand::AtHand;
use crate::fault::BodyFault;
use http_relay_wire::{Wire, write_all};

/// Passes on so many bytes, through this room. Each read and write moves as many bytes as the room has, or what is left.
pub(crate) fn pass<C: Wire, S: Wire>(
    at_hand: &mut AtHand<'_>,
    client: &mut C,
    server: &mut S,
    room: &mut [u8],
    count: u64,
) -> Result<(), BodyFault>
    requires { 0 < length room.old }
    ensures moved { Moved (IsLong count) at_hand.old at_hand.new (C.reading client.old) (C.reading client.new)
        (S.written server.old) (S.written server.new) result }
    ensures fewer { OnOk result (length at_hand.new + (C.reading client.new).left ≤ length at_hand.old + (C.reading client.old).left) }
    ensures client { C.faults client.new ≡ client_faults result (C.faults client.old) }
    ensures server { S.faults server.new ≡ server_faults result (S.faults server.old) }
    ensures client_written { C.written client.new ≡ C.written client.old }
    ensures server_reading { S.reading server.new ≡ S.reading server.old }
{
    let mut left = count;
    while left > 0 {
        let most = left.min(room.len() as u64) as usize;
        let passed = pass_some(at_hand, client, server, &mut room[..most])?;
        left -= passed as u64;
    }
    Ok(())
}

/// Passes on at least one byte and at most as many as the room has.
fn pass_some<C: Wire, S: Wire>(
    at_hand: &mut AtHand<'_>,
    client: &mut C,
    server: &mut S,
    room: &mut [u8],
) -> Result<usize, BodyFault>
    requires { 0 < length room.old }
    ensures moved { Moved (IsSome (length room.old)) at_hand.old at_hand.new (C.reading client.old) (C.reading client.new)
        (S.written server.old) (S.written server.new) result }
    ensures within { IfOk result (λ count. count ≤ length room.old) }
    ensures fewer { OnOk result (length at_hand.new + (C.reading client.new).left < length at_hand.old + (C.reading client.old).left) }
    ensures client { C.faults client.new ≡ client_faults result (C.faults client.old) }
    ensures server { S.faults server.new ≡ server_faults result (S.faults server.old) }
    ensures client_written { C.written client.new ≡ C.written client.old }
    ensures server_reading { S.reading server.new ≡ S.reading server.old }
{
    let taken = match at_hand.take(client, room) {
        Ok(0) => return Err(BodyFault::Truncated),
        Ok(taken) => taken,
        Err(fault) => return Err(BodyFault::Client(fault)),
    };
    send(server, &room[..taken])?;
    Ok(taken)
}

/// Writes these bytes to the server; at a fault, which is the server's, a beginning of them went out.
pub(crate) fn send<S: Wire>(server: &mut S, bytes: &[u8]) -> Result<(), BodyFault>
    ensures ok { OnOk result (S.written server.new ≡ append_known (S.written server.old) bytes.now) }
    ensures err { OnErr result (AppendsBeginning (S.written server.old) (S.written server.new) bytes.now) }
    ensures faults { S.faults server.new ≡ server_faults result (S.faults server.old) }
    ensures reading { S.reading server.new ≡ S.reading server.old }

    // Its faults are the server's.
    ensures cause { IsServerFault result }
    ensures client { (counts : FaultCounts) → client_faults result counts ≡ counts }
{
    match write_all(server, bytes) {
        Ok(()) => Ok(()),
        Err(fault) => Err(BodyFault::Server(fault)),
    }
}
