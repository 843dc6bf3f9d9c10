ghost use Rattle.std.specs.Prelude.{◌≡◌, ◌+◌, ◌<◌, ◌≤◌, length, IfOk};
ghost use Rattle.http_relay_body.specs.Moves.{client_faults, server_faults};
ghost use Rattle.http_relay_body.specs.Parts.{IsPartText, least_from, least_behind};
ghost use Rattle.http_relay_body.specs.Rooms.{stand, Passed, Sees};
ghost use Rattle.http_relay_body.specs.Trailers.{Walked};

mod line_end;
mod size_line;
mod trailer;

use crate::at_hand::AtHand;
use crate::chunks::part::trailer::Walk;
use crate::chunks::room::Room;
use crate::fault::BodyFault;
use http_relay_wire::Wire;

/// A part of a chunked body other than data.
#[derive(Clone, Copy, Debug, PartialEq, Eq)]
pub(crate) enum Part {
    /// The size line of a chunk.
    SizeLine,
    /// The CR LF after a chunk's data.
    DataEnd,
    /// The trailer, with its empty line.
    Trailer,
}

/// What is seen of a part in the bytes that have come.
#[derive(Clone, Copy, Debug, PartialEq, Eq)]
pub(crate) enum Sight {
    /// It is there: how many bytes it has, and the size that it gives if it is a size line.
    Whole(usize, u64),
    /// It isn't there yet, and may still come: at least so many bytes must come, of it and of the body after it.
    Short(usize),
    /// It can't come any more.
    Bad,
}

/// Judges the next part of the body, and answers the size that it gives if it is a size line. No byte after the body is taken, since
/// no more bytes are taken at once than must still come. None is taken after bytes that can become no part, since they are judged
/// before more are waited for.
pub(crate) fn pass_part<C: Wire, S: Wire>(
    part: Part,
    at_hand: &mut AtHand<'_>,
    client: &mut C,
    server: &mut S,
    room: &mut Room,
) -> Result<u64, BodyFault>
    requires { length room.old.ahead ≤ least_from part }
    ensures passed { Passed (IsPartText part) (stand at_hand.old (C.reading client.old) (S.written server.old) room.old)
        (stand at_hand.new (C.reading client.new) (S.written server.new) room.new) result }
    ensures ahead { IfOk result (λ value. length room.new.ahead ≤ least_behind part value) }
    ensures client { C.faults client.new ≡ client_faults result (C.faults client.old) }
    ensures server { S.faults server.new ≡ server_faults result (S.faults server.old) }
    ensures client_written { C.written client.new ≡ C.written client.old }
    ensures server_reading { S.reading server.new ≡ S.reading server.old }
{
    let mut walk = Walk::new();
    loop {
        match look(part, &mut walk, room.ahead()) {
            Sight::Whole(len, value) => {
                room.judge(len);
                return Ok(value);
            }
            Sight::Short(least) => room.fetch(at_hand, client, server, least)?,
            Sight::Bad => return Err(BodyFault::BadChunk),
        }
    }
}

/// Looks for the part in a text of which nothing was looked at before.
pub(crate) fn sight_of(part: Part, text: &[u8]) -> Sight
    ensures { Sees part text.now result }
{
    look(part, &mut Walk::new(), text)
}

/// Looks for the part in this text. A trailer is looked for by a walk that has come through a front of the text.
fn look(part: Part, walk: &mut Walk, text: &[u8]) -> Sight
    requires { Walked walk.old text.now }
    ensures sees { Sees part text.now result }
    ensures walked { Walked walk.new text.now }
{
    match part {
        Part::SizeLine => size_line::look(text),
        Part::DataEnd => line_end::look(text),
        Part::Trailer => walk.look(text),
    }
}
