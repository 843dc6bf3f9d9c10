ghost use Rattle.std.specs.Prelude.{◌≡◌, ℕ, List, ◌++◌, IfSome};
ghost use Rattle.http_relay_body.specs.Moves.{Moved, IsLong, client_faults, server_faults};
ghost use Rattle.http_relay_body.specs.Bodies.{IsBody, JudgesInput};

use crate::at_hand::AtHand;
use crate::chunks::pass_chunks;
use crate::fault::BodyFault;
use crate::length::pass;
use http_relay_forward::BodyKind;
use http_relay_wire::Wire;

/// The bytes of the room that a body of so many bytes goes through.
const ROOM: usize = 16384;

/// Sends a request's body of this kind from the client to the server, byte for byte. `behind` is what was read of the client after
/// the head, and nothing is read past the body's end. It allocates nothing: the bytes go through one buffer. What a read gave is
/// written before the next, except a part of a chunked body that isn't whole yet.
pub fn send_body<C: Wire, S: Wire>(
    kind: BodyKind,
    behind: &[u8],
    client: &mut C,
    server: &mut S,
) -> Result<(), BodyFault>
    ensures sent { (left : List ℕ) × Moved (λ _ text. IsBody kind text) behind.now left (C.reading client.old) (C.reading client.new)
        (S.written server.old) (S.written server.new) result }
    ensures client { C.faults client.new ≡ client_faults result (C.faults client.old) }
    ensures server { S.faults server.new ≡ server_faults result (S.faults server.old) }
    ensures client_written { C.written client.new ≡ C.written client.old }
    ensures server_reading { S.reading server.new ≡ S.reading server.old }

    // What the answer says of all that the client sends after the head, where it is known.
    ensures input { IfSome (C.reading client.old).unread (λ input. JudgesInput kind (behind.now ++ input) result) }
{
    let mut at_hand = AtHand::new(behind);
    send_through(kind, &mut at_hand, client, server)
}

/// Sends the body of this kind.
fn send_through<C: Wire, S: Wire>(
    kind: BodyKind,
    at_hand: &mut AtHand<'_>,
    client: &mut C,
    server: &mut S,
) -> Result<(), BodyFault>
    ensures moved { Moved (λ _ text. IsBody kind text) at_hand.old at_hand.new (C.reading client.old) (C.reading client.new)
        (S.written server.old) (S.written server.new) result }
    ensures client { C.faults client.new ≡ client_faults result (C.faults client.old) }
    ensures server { S.faults server.new ≡ server_faults result (S.faults server.old) }
    ensures client_written { C.written client.new ≡ C.written client.old }
    ensures server_reading { S.reading server.new ≡ S.reading server.old }
{
    match kind {
        BodyKind::Empty => Ok(()),
        BodyKind::Length(count) => send_counted(count, at_hand, client, server),
        BodyKind::Chunked => pass_chunks(at_hand, client, server),
    }
}

/// Sends a body of so many bytes. The room is in a frame of its own, since the pages of a frame are touched when it is entered: a
/// request without such a body costs none of this memory.
#[inline(never)]
fn send_counted<C: Wire, S: Wire>(
    count: u64,
    at_hand: &mut AtHand<'_>,
    client: &mut C,
    server: &mut S,
) -> Result<(), BodyFault>
    ensures moved { Moved (IsLong count) at_hand.old at_hand.new (C.reading client.old) (C.reading client.new)
        (S.written server.old) (S.written server.new) result }
    ensures client { C.faults client.new ≡ client_faults result (C.faults client.old) }
    ensures server { S.faults server.new ≡ server_faults result (S.faults server.old) }
    ensures client_written { C.written client.new ≡ C.written client.old }
    ensures server_reading { S.reading server.new ≡ S.reading server.old }
{
    pass(at_hand, client, server, &mut [0; ROOM], count)
}
