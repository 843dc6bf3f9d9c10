ghost use Rattle.std.specs.Prelude.{◌≡◌, length};
ghost use Rattle.http_relay_head.specs.Heads.{after_head};
ghost use Rattle.http_relay_head.specs.Scans.{Filled};

use crate::fault::HeadFault;
use crate::scanning::{HEAD_ROOM, MOST_FIELDS, Scanned, scan};
use http_relay_wire::Wire;
use httparse::spans::{HeaderSpan, RequestSpans};

/// A head at the front of a room, and how many bytes of the room are filled.
#[derive(Clone, Copy, Debug, PartialEq, Eq)]
pub(crate) struct Found {
    pub(crate) spans: RequestSpans,
    pub(crate) filled: usize,
}

/// Reads into the room until a head stands at its front, or none can.
pub(crate) fn fill<W: Wire>(
    wire: &mut W,
    room: &mut [u8],
    headers: &mut [HeaderSpan],
) -> Result<Found, HeadFault>
    requires room { length room.old ≡ HEAD_ROOM }
    requires headers { length headers.old ≡ MOST_FIELDS }
    ensures filled { Filled (W.reading wire.old) (W.reading wire.new) room.new headers.new result }
    ensures faults { W.faults wire.new ≡ after_head result (W.faults wire.old) }
    ensures written { W.written wire.new ≡ W.written wire.old }
{
    let mut filled = 0;
    loop {
        match scan(&room[..filled], headers) {
            Scanned::Head(spans) => return Ok(Found { spans, filled }),
            Scanned::TooLarge => return Err(HeadFault::HeadTooLarge),
            Scanned::Bad => return Err(HeadFault::BadHead),
            Scanned::Unfinished => {}
        }
        match wire.read(&mut room[filled..]) {
            Ok(0) => return Err(HeadFault::Truncated),
            Ok(count) => filled += count,
            Err(fault) => return Err(HeadFault::Wire(fault)),
        }
    }
}
