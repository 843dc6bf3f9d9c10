ghost use Rattle.std.specs.Prelude.{◌≡◌, ◌+◌, ◌<◌, ◌≤◌, length, OnOk};
ghost use Rattle.http_relay_body.specs.Moves.{IsLong, client_faults, server_faults};
ghost use Rattle.http_relay_body.specs.Parts.{IsDataText};
ghost use Rattle.http_relay_body.specs.Rooms.{stand, Passed};

use crate::at_hand::AtHand;
use crate::chunks::part::{Part, pass_part};
use crate::chunks::room::{ROOM, Room};
use crate::fault::BodyFault;
use http_relay_wire::Wire;

/// Judges the data of a chunk, and the CR LF after it.
pub(crate) fn pass_data<C: Wire, S: Wire>(
    at_hand: &mut AtHand<'_>,
    client: &mut C,
    server: &mut S,
    room: &mut Room,
    size: u64,
) -> Result<(), BodyFault>
    requires { length room.old.ahead ≤ size + 6 }
    ensures passed { Passed (IsDataText size) (stand at_hand.old (C.reading client.old) (S.written server.old) room.old)
        (stand at_hand.new (C.reading client.new) (S.written server.new) room.new) result }
    ensures ahead { OnOk result (length room.new.ahead ≤ 4) }
    ensures client { C.faults client.new ≡ client_faults result (C.faults client.old) }
    ensures server { S.faults server.new ≡ server_faults result (S.faults server.old) }
    ensures client_written { C.written client.new ≡ C.written client.old }
    ensures server_reading { S.reading server.new ≡ S.reading server.old }
{
    pass_bytes(at_hand, client, server, room, size)?;
    pass_part(Part::DataEnd, at_hand, client, server, room)?;
    Ok(())
}

/// Judges so many bytes, whatever they are.
fn pass_bytes<C: Wire, S: Wire>(
    at_hand: &mut AtHand<'_>,
    client: &mut C,
    server: &mut S,
    room: &mut Room,
    count: u64,
) -> Result<(), BodyFault>
    requires { length room.old.ahead ≤ count + 6 }
    ensures passed { Passed (IsLong count) (stand at_hand.old (C.reading client.old) (S.written server.old) room.old)
        (stand at_hand.new (C.reading client.new) (S.written server.new) room.new) result }
    ensures ahead { OnOk result (length room.new.ahead ≤ 6) }
    ensures client { C.faults client.new ≡ client_faults result (C.faults client.old) }
    ensures server { S.faults server.new ≡ server_faults result (S.faults server.old) }
    ensures client_written { C.written client.new ≡ C.written client.old }
    ensures server_reading { S.reading server.new ≡ S.reading server.old }
{
    let mut left = count;
    loop {
        let here = left.min(room.ahead().len() as u64);
        room.judge(here as usize);
        left -= here;
        if left == 0 {
            return Ok(());
        }
        room.fetch(at_hand, client, server, least_to_come(left))?;
    }
}

/// How many bytes at least must come where so many are left of a chunk's data: these, the line end, and the shortest body. The answer
/// is never more than fit into a room.
fn least_to_come(left: u64) -> usize
    requires { 0 < left }
    ensures { (0 < result) × (result ≤ left + 6) }
{
    left.min(ROOM as u64) as usize + 6
}
