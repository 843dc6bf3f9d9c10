ghost use Rattle.std.specs.Prelude.{◌≡◌, length, IfSome};
ghost use Rattle.http_relay_head.specs.Heads.{HeadRead, JudgesInput, after_head};

use crate::assembling::assemble;
use crate::fault::HeadFault;
use crate::filling::fill;
use crate::parts::ReadHead;
use crate::scanning::{HEAD_ROOM, MOST_FIELDS};
use http_relay_wire::Wire;
use httparse::spans::{EMPTY_HEADER_SPAN, HeaderSpan};
use std::alloc::Global;
use std::net::Ipv4Addr;

/// Reads the head of a request that a client at `source` sends. Its parts lie in `room`. Memory is asked for once, for the list
/// of the fields, when the head is whole; each read costs one walk over what has come.
pub fn read_head<'a, W: Wire>(
    alloc: Global,
    wire: &mut W,
    room: &'a mut [u8; HEAD_ROOM],
    source: Ipv4Addr,
) -> Result<ReadHead<'a>, HeadFault>
    ensures head { HeadRead source (W.reading wire.old) (W.reading wire.new) result }
    ensures faults { W.faults wire.new ≡ after_head result (W.faults wire.old) }
    ensures written { W.written wire.new ≡ W.written wire.old }

    // What the answer says of all that the client sends, where it is known.
    ensures input { IfSome (W.reading wire.old).unread (λ input. JudgesInput source input result) }
{
    let mut headers = [EMPTY_HEADER_SPAN; MOST_FIELDS];
    read_into(alloc, wire, room, &mut headers, source)
}

/// Reads the head into these places.
fn read_into<'a, W: Wire>(
    alloc: Global,
    wire: &mut W,
    bytes: &'a mut [u8],
    headers: &mut [HeaderSpan],
    source: Ipv4Addr,
) -> Result<ReadHead<'a>, HeadFault>
    requires bytes { length bytes.old ≡ HEAD_ROOM }
    requires headers { length headers.old ≡ MOST_FIELDS }
    ensures head { HeadRead source (W.reading wire.old) (W.reading wire.new) result }
    ensures faults { W.faults wire.new ≡ after_head result (W.faults wire.old) }
    ensures written { W.written wire.new ≡ W.written wire.old }
{
    let found = fill(wire, bytes, headers)?;
    assemble(alloc, &bytes[..found.filled], headers, found.spans, source)
}
