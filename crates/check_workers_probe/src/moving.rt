ghost use Rattle.std.specs.Prelude.{◌≡◌, ◌≤◌, ◌<◌, ◌++◌, length, take, OnOk, OnErr};
ghost use Rattle.std.specs.Io.KnownBytes.{append_known};
ghost use Rattle.http_relay_wire.specs.Faults.{after_write};
ghost use Rattle.check_workers_probe.specs.Moving.{Heard};

use crate::judge::{MOST_BYTES, Verdict, judge};
use http_relay_wire::{Wire, WireFault};

/// Writes the bytes, or as many as the wire takes before a call fails, and says how many those are.
pub(crate) fn write_most<W: Wire>(wire: &mut W, bytes: &[u8]) -> (usize, Result<(), WireFault>)
    ensures within { result.0 ≤ length bytes.now }
    ensures written { W.written wire.new ≡ append_known (W.written wire.old) (take result.0 bytes.now) }
    ensures ok { OnOk result.1 (result.0 ≡ length bytes.now) }
    ensures err { OnErr result.1 (result.0 < length bytes.now) }
    ensures faults { W.faults wire.new ≡ after_write result.1 (W.faults wire.old) }
    ensures reading { W.reading wire.new ≡ W.reading wire.old }
{
    let mut sent = 0;
    while sent < bytes.len() {
        match wire.write(&bytes[sent..]) {
            Ok(count) => sent += count,
            Err(fault) => return (sent, Err(fault)),
        }
    }
    (sent, Ok(()))
}

/// Reads a response into the room, after what has come, until it is judged or a read fails. Says how many bytes have come, and the
/// answer, if there is one.
pub(crate) fn hear<W: Wire>(wire: &mut W, room: &mut [u8], filled: usize) -> (usize, Option<bool>)
    requires room { length room.old ≡ MOST_BYTES }
    requires filled { filled ≤ MOST_BYTES }
    ensures room { length room.new ≡ MOST_BYTES }
    ensures filled { result.0 ≤ MOST_BYTES }
    ensures heard { Heard (take filled room.old) (take result.0 room.new) (W.reading wire.old) (W.reading wire.new)
        (W.faults wire.old) (W.faults wire.new) result.1 }
    ensures written { W.written wire.new ≡ W.written wire.old }
{
    let mut filled = filled;
    loop {
        match judge(&room[..filled]) {
            Verdict::Success => return (filled, Some(true)),
            Verdict::Failure => return (filled, Some(false)),
            Verdict::Unfinished => {}
        }
        let count = match wire.read(&mut room[filled..]) {
            Ok(count) => count,
            Err(WireFault::Timeout) => return (filled, None),
            Err(WireFault::Broken) => return (filled, Some(false)),
        };
        if count == 0 {
            return (filled, Some(false));
        }
        filled += count;
    }
}
