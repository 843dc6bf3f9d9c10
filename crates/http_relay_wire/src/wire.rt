ghost use Rattle.std.specs.Prelude.{◌≡◌, ◌≤◌, ◌<◌, ℕ, ◌-◌, ◌||◌, List, Option, length, IfOk, OnOk, OnErr, IsTrue, Ok, Err};
ghost use Rattle.std.specs.Io.KnownBytes.{prepend_known, append_known, IsAtEnd};
ghost use Rattle.http_relay_wire.specs.Faults.{after_read, after_write};
ghost use Rattle.http_relay_wire.specs.Wires.{Reading, moved, tells_end, AppendsBeginning};

use crate::fault::{FaultCounts, WireFault};

/// A connection to a peer.
pub trait Wire {
    ghost use Rattle.http_relay_wire.specs.declared.fault.FaultCounts.{FaultCounts};

    /// What can still be read.
    ghost reading: { Self → Reading };

    /// The bytes that were written so far, where they are known.
    ghost written: { Self → Option (List ℕ) };

    /// How often it has failed.
    ghost faults: { Self → FaultCounts };

    /// Reads the next bytes into the front of `buffer` and answers how many came: none only where the peer has ended or
    /// `buffer` is empty. Each call uses up one of the reads that are left; with none left it is `Broken`. A fault loses
    /// no byte.
    fn read(&mut self, buffer: &mut [u8]) -> Result<usize, WireFault>
        ensures within { IfOk result (λ count. count ≤ length buffer.new) }
        ensures bytes { (reading self.old).unread
            ≡ prepend_known (moved result buffer.new) (reading self.new).unread }

        // The end is reported where no byte is left, and stays reported.
        ensures end { IsTrue (tells_end result (length buffer.new)) → IsAtEnd (reading self.new).unread }
        ensures ended { (reading self.new).ended
            ≡ (reading self.old).ended || tells_end result (length buffer.new) }

        ensures left { (reading self.new).left ≡ (reading self.old).left - 1 }
        ensures none_left { (reading self.old).left ≡ 0 → result ≡ Err WireFault.Broken }
        ensures faults { faults self.new ≡ after_read result (faults self.old) }
        ensures written { written self.new ≡ written self.old };

    /// Writes a beginning of `bytes` and answers how many it took: at least one where there is one. A fault takes none.
    fn write(&mut self, bytes: &[u8]) -> Result<usize, WireFault>
        ensures within { IfOk result (λ count. count ≤ length bytes.now) }
        ensures some { IfOk result (λ count. 0 < length bytes.now → 0 < count) }
        ensures bytes { written self.new ≡ append_known (written self.old) (moved result bytes.now) }
        ensures faults { faults self.new ≡ after_write result (faults self.old) }
        ensures reading { reading self.new ≡ reading self.old };
}

/// Writes all of `bytes`; at a fault a beginning of them went out. It allocates nothing.
pub fn write_all<W: Wire>(wire: &mut W, bytes: &[u8]) -> Result<(), WireFault>
    ensures ok { OnOk result (W.written wire.new ≡ append_known (W.written wire.old) bytes.now) }
    ensures err { OnErr result (AppendsBeginning (W.written wire.old) (W.written wire.new) bytes.now) }
    ensures faults { W.faults wire.new ≡ after_write result (W.faults wire.old) }
    ensures reading { W.reading wire.new ≡ W.reading wire.old }
{
    let mut rest = bytes;
    while !rest.is_empty() {
        let count = wire.write(rest)?;
        rest = &rest[count..];
    }
    Ok(())
}
