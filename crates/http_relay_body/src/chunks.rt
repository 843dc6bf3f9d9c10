ghost use Rattle.std.specs.Prelude.{◌≡◌, ◌+◌, ◌<◌, ◌≤◌, [], length, IfOk, OnOk, cond};
ghost use Rattle.http_relay_body.specs.Moves.{Moved, client_faults, server_faults};
ghost use Rattle.http_relay_body.specs.Chunks.{IsChunked};
ghost use Rattle.http_relay_body.specs.Parts.{IsChunkText};
ghost use Rattle.http_relay_body.specs.Rooms.{stand, Passed};

mod data;
mod part;
mod room;
mod whole;

use crate::at_hand::AtHand;
use crate::chunks::data::pass_data;
use crate::chunks::part::{Part, pass_part};
use crate::chunks::room::Room;
pub(crate) use crate::chunks::whole::whole_chunks;
use crate::fault::BodyFault;
use http_relay_wire::Wire;

/// Passes on a chunked body. In the usual case a chunk costs one read and one write. As much is read at once as must still come, so
/// no byte after the body is read. What was judged goes out together before the next read. Nothing is waited for after a bad line, so
/// a size line costs a walk over what has come of it at each read. Of a trailer each byte is looked at once. The room is in a frame of
/// its own, whose pages are touched when it is entered: a request without chunks costs none of this memory.
#[inline(never)]
pub(crate) fn pass_chunks<C: Wire, S: Wire>(
    at_hand: &mut AtHand<'_>,
    client: &mut C,
    server: &mut S,
) -> Result<(), BodyFault>
    ensures moved { Moved (λ _ text. IsChunked text) at_hand.old at_hand.new (C.reading client.old) (C.reading client.new)
        (S.written server.old) (S.written server.new) result }
    ensures client { C.faults client.new ≡ client_faults result (C.faults client.old) }
    ensures server { S.faults server.new ≡ server_faults result (S.faults server.old) }
    ensures client_written { C.written client.new ≡ C.written client.old }
    ensures server_reading { S.reading server.new ≡ S.reading server.old }
{
    let mut room = Room::new();
    judge_chunks(at_hand, client, server, &mut room)?;
    room.send_judged(server)
}

/// Judges all chunks and the trailer. At the end nothing stands ahead, and what was judged last has still to go out.
fn judge_chunks<C: Wire, S: Wire>(
    at_hand: &mut AtHand<'_>,
    client: &mut C,
    server: &mut S,
    room: &mut Room,
) -> Result<(), BodyFault>
    requires { length room.old.ahead ≤ 4 }
    ensures passed { Passed (λ _ text. IsChunked text) (stand at_hand.old (C.reading client.old) (S.written server.old) room.old)
        (stand at_hand.new (C.reading client.new) (S.written server.new) room.new) result }
    ensures ahead { OnOk result (room.new.ahead ≡ []) }
    ensures client { C.faults client.new ≡ client_faults result (C.faults client.old) }
    ensures server { S.faults server.new ≡ server_faults result (S.faults server.old) }
    ensures client_written { C.written client.new ≡ C.written client.old }
    ensures server_reading { S.reading server.new ≡ S.reading server.old }
{
    loop {
        if pass_chunk(at_hand, client, server, room)? {
            return Ok(());
        }
    }
}

/// Judges the next chunk, and after the one of size 0 the trailer; answers whether it was that one.
fn pass_chunk<C: Wire, S: Wire>(
    at_hand: &mut AtHand<'_>,
    client: &mut C,
    server: &mut S,
    room: &mut Room,
) -> Result<bool, BodyFault>
    requires { length room.old.ahead ≤ 4 }
    ensures passed { Passed IsChunkText (stand at_hand.old (C.reading client.old) (S.written server.old) room.old)
        (stand at_hand.new (C.reading client.new) (S.written server.new) room.new) result }
    ensures ahead { IfOk result (λ is_last. length room.new.ahead ≤ cond is_last 0 4) }
    ensures client { C.faults client.new ≡ client_faults result (C.faults client.old) }
    ensures server { S.faults server.new ≡ server_faults result (S.faults server.old) }
    ensures client_written { C.written client.new ≡ C.written client.old }
    ensures server_reading { S.reading server.new ≡ S.reading server.old }
{
    let size = pass_part(Part::SizeLine, at_hand, client, server, room)?;
    if size == 0 {
        pass_part(Part::Trailer, at_hand, client, server, room)?;
        return Ok(true);
    }
    pass_data(at_hand, client, server, room, size)?;
    Ok(false)
}
