ghost use Rattle.std.specs.Prelude.{◌≡◌, ◌<◌, ◌≤◌, length, take, OnOk, IfOk, OnErr, if◌then◌else◌};
ghost use Rattle.std.specs.Io.{WritesAtMost};
ghost use Rattle.std.specs.Io.KnownBytes.{Keeps, Appends, WriteAppends};
ghost use Rattle.lb_types_counted.specs.Writers.{writer_state, has_failed, one_more, WritesWhole, WritesFront, AppendsFront, Rises};

use std::io;
use std::io::{ErrorKind, Write};
use std::marker::Model;

/// A writer that counts its writes that failed or took no byte of a buffer that isn't empty.
///
/// A write that a signal interrupted failed, and counts, even where it is tried again. A failed `flush` doesn't count. The
/// count stops at 2^64 - 1.
#[derive(Debug, Drop)]
pub struct Counted<W: Write> {
    inner: W,
    failures: u64,
}

impl<W: Write> Model for Counted<W> {
    ghost use Rattle.lb_types_counted.specs.Writers.{WriterState, writer_state};

    ghost Value = { WriterState };

    ghost view = { λ c. writer_state (W.contents c.inner) c.failures };
}

impl<W: Write> Counted<W> {
    /// The writer, of which no write has failed yet.
    pub fn new(inner: W) -> Self
        ensures { result ≡ writer_state (W.contents inner) 0 }
    {
        Counted { inner, failures: 0 }
    }

    /// How many writes failed or took nothing.
    pub fn failures(&self) -> u64
        ensures { result ≡ self.now.failures }
    {
        self.failures
    }

    /// The wrapped writer.
    pub fn into_inner(self) -> W
        ensures { W.contents result ≡ self.contents }
    {
        let Counted { inner, failures: _ } = self;
        inner
    }

    /// One write, and again where a signal interrupts it.
    fn write_some(&mut self, bytes: &[u8]) -> io::Result<usize>
        requires { 0 < length bytes.now }
        ensures some { IfOk result (λ taken. 0 < taken) }
        ensures fits { IfOk result (λ taken. taken ≤ length bytes.now) }
        ensures ok { IfOk result (λ taken. WritesWhole self.old self.new (take taken bytes.now)) }
        ensures err { OnErr result (WritesFront self.old self.new bytes.now) }
    {
        for _ in 0..u64::MAX {
            match self.write(bytes) {
                Ok(0) => return Err(io::Error::from(ErrorKind::WriteZero)),
                Ok(taken) => return Ok(taken),
                Err(error) => {
                    if error.kind() != ErrorKind::Interrupted {
                        return Err(error);
                    }
                }
            }
        }
        Err(io::Error::from(ErrorKind::Interrupted))
    }
}

impl<W: Write> Write for Counted<W> {
    ghost contents = { λ c. c.contents };

    fn write(&mut self, buf: &[u8]) -> io::Result<usize>
        ensures bound { WritesAtMost result buf.now }
        ensures bytes { WriteAppends self.old.contents self.new.contents result buf.now }
        // Exactly the writes that failed are counted.
        ensures failures { self.new.failures
            ≡ (if has_failed result buf.now then one_more self.old.failures else self.old.failures) }
    {
        let result = self.inner.write(buf);
        let has_failed = match &result {
            Ok(taken) => *taken == 0 && !buf.is_empty(),
            Err(_) => true,
        };
        if has_failed {
            self.failures = self.failures.saturating_add(1);
        }
        result
    }

    fn flush(&mut self) -> io::Result<()>
        ensures bytes { Keeps self.old.contents self.new.contents }
        ensures failures { self.new.failures ≡ self.old.failures }
    {
        self.inner.flush()
    }

    /// Writes all of the bytes, a part at a time where a write takes only a part. A write that a signal interrupts is
    /// tried again, one that fails otherwise or takes nothing is not.
    fn write_all(&mut self, buf: &[u8]) -> io::Result<()>
        ensures bytes { OnOk result (Appends self.old.contents self.new.contents buf.now) }
        ensures ok { OnOk result (WritesWhole self.old self.new buf.now) }
        // Never without a write that failed.
        ensures err { OnErr result (WritesFront self.old self.new buf.now) }
    {
        let mut written = 0;
        while written < buf.len() {
            written += self.write_some(&buf[written..])?;
        }
        Ok(())
    }
}
