ghost use Rattle.std.specs.Prelude.{◌≡◌, ◌<◌, length};
ghost use Rattle.http_relay_socket.specs.Drains.{DrainedOf};

use crate::{Deadline, PatientStream};
use http_relay_wire::{SocketWire, Wire, WireFault};
use std::io::{Read, Write};
use std::net::{OpenStream, Shutdown};
use std::time::Clock;

/// The most bytes that are read and dropped at the end of a stream.
const MOST_DRAINED: u64 = 65536;

/// How many milliseconds the end of a stream may take.
const MOST_MILLIS: u32 = 1000;

/// How the reading of what still came ended.
#[derive(Clone, Copy, Debug, PartialEq, Eq)]
pub enum Drained {
    /// The peer ended too.
    Ended,
    /// As much came as is read at most.
    Full,
    /// A read failed.
    Failed(WireFault),
}

/// Reads and drops what the peer still sends, at most 65,536 bytes of it, through this room, and writes nothing.
pub fn drain<W: Wire>(wire: &mut W, room: &mut [u8]) -> Drained
    requires { 0 < length room.old }
    ensures drained { DrainedOf (W.reading wire.old) (W.reading wire.new) (W.faults wire.old) (W.faults wire.new) result }
    ensures written { W.written wire.new ≡ W.written wire.old }
{
    let mut left = MOST_DRAINED;
    while left > 0 {
        let most = left.min(room.len() as u64) as usize;
        match wire.read(&mut room[..most]) {
            Ok(0) => return Drained::Ended,
            Ok(count) => left -= count as u64,
            Err(fault) => return Drained::Failed(fault),
        }
    }
    Drained::Full
}

/// Ends a stream so that its peer gets all that was sent. It ends its own direction first, reads and drops what still comes, at most
/// 65,536 bytes and for at most a second, and closes. A stream that is closed with bytes unread is reset by the system, and the peer
/// may lose what it hadn't read yet (RFC 9112, section 9.6).
pub fn end_gently<K: Clock, S: Read + Write + OpenStream + Drop>(
    clock: &K,
    stream: S,
    room: &mut [u8],
) -> Drained
    requires { 0 < length room.old }
{
    if stream.shutdown(Shutdown::Write).is_err() {
        return Drained::Failed(WireFault::Broken);
    }
    let patience = Deadline::after(clock, MOST_MILLIS);
    drain(
        &mut SocketWire::new(PatientStream::new(stream, patience)),
        room,
    )
}
