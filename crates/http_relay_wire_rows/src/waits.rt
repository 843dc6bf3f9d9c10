ghost use Rattle.std.specs.Prelude.{◌≤◌, IfOk};

use http_relay_socket::{Deadline, PatientStream, StreamLimits};
use http_relay_wire::{SocketWire, Wire, WireFault, write_all};
use std::cell::Cell;
use std::io;
use std::io::{ErrorKind, Read, Write};
use std::net::OpenStream;
use std::time::{Clock, Duration};

const TIMEOUT: WireFault = WireFault::Timeout;

/// Time that passes where a stream waits.
#[derive(Drop)]
struct Time {
    millis: Cell<u64>,
    // Reads of the clock fail from here on.
    is_lost: Cell<bool>,
}

impl Time {
    fn new() -> Self {
        Time {
            millis: Cell::new(0),
            is_lost: Cell::new(false),
        }
    }
}

impl Clock for Time {
    fn monotonic(&self) -> io::Result<Duration> {
        if self.is_lost.get() {
            return Err(ErrorKind::Other.into());
        }
        Ok(Duration::from_millis(self.millis.get()))
    }

    fn since_1970(&self) -> io::Result<Duration> {
        self.monotonic()
    }
}

/// A stream each of whose calls moves one byte when its peer has waited so long, or ends over the limit that was set last.
#[derive(Drop)]
struct Slow<'a> {
    time: &'a Time,
    pace: u64,
    read_limit: Cell<Option<Duration>>,
    write_limit: Cell<Option<Duration>>,
}

impl<'a> Slow<'a> {
    fn new(time: &'a Time, pace: u64) -> Self {
        Slow {
            time,
            pace,
            read_limit: Cell::new(None),
            write_limit: Cell::new(None),
        }
    }

    fn wait(&self, limit: Option<Duration>, room: usize) -> io::Result<usize>
        ensures { IfOk result (λ count. count ≤ room) }
    {
        let begun = self.time.millis.get();
        let limit = match limit {
            Some(limit) => u64::try_from(limit.as_millis()).unwrap_or(u64::MAX),
            None => u64::MAX,
        };
        self.time
            .millis
            .set(begun.saturating_add(self.pace.min(limit)));
        if limit < self.pace {
            return Err(ErrorKind::WouldBlock.into());
        }
        Ok(room.min(1))
    }
}

impl Read for Slow<'_> {
    fn read(&mut self, buffer: &mut [u8]) -> io::Result<usize> {
        self.wait(self.read_limit.get(), buffer.len())
    }
}

impl Write for Slow<'_> {
    fn write(&mut self, bytes: &[u8]) -> io::Result<usize> {
        self.wait(self.write_limit.get(), bytes.len())
    }

    fn flush(&mut self) -> io::Result<()> {
        Ok(())
    }
}

impl OpenStream for Slow<'_> {
    fn set_read_timeout(&self, limit: Option<Duration>) -> io::Result<()> {
        self.read_limit.set(limit);
        Ok(())
    }

    fn set_write_timeout(&self, limit: Option<Duration>) -> io::Result<()> {
        self.write_limit.set(limit);
        Ok(())
    }
}

// How long a byte takes, and how many bytes a wire with a deadline of 1,000 ms writes and then reads before that has passed.
const DEADLINES: &[(u64, usize, usize)] = &[(100, 4, 6), (400, 1, 1), (400, 2, 0), (999, 1, 0)];

// The deadline is one for all calls together: what is left of it when one begins is how long that may wait.
#[test]
fn a_deadline_is_one_for_all_calls(rt: HostRuntime) {
    for (pace, writes, reads) in DEADLINES {
        let time = Time::new();
        let stream = PatientStream::new(Slow::new(&time, *pace), Deadline::after(&time, 1000));
        let mut wire = SocketWire::new(stream);
        let text = [0; 4];
        let written = write_all(&mut wire, &text[..*writes]);
        let mut read: usize = 0;
        for _ in 0..*reads {
            read = read.saturating_add(wire.read(&mut [0; 8]).unwrap_or(0));
        }
        let last = wire.read(&mut [0; 8]);
        assert!(rt;
            written == Ok(())
                && read == *reads
                && last == Err(TIMEOUT)
                && time.millis.get() == 1000,
            "{pace}, {read}, {last:?}"
        );
    }
}

// A clock that can't be read leaves no time.
#[test]
fn without_a_clock_the_deadline_has_passed(rt: HostRuntime) {
    let time = Time::new();
    let deadline = Deadline::after(&time, 1000);
    time.is_lost.set(true);
    let mut wire = SocketWire::new(PatientStream::new(Slow::new(&time, 1), deadline));
    assert!(rt; wire.read(&mut [0; 8]) == Err(TIMEOUT) && wire.write(b"a") == Err(TIMEOUT));
}

// Limits in milliseconds as they are given, and as the stream has them.
const LIMITS: &[(Option<u32>, Option<u64>)] = &[
    (None, None),
    (Some(0), None),
    (Some(1500), Some(1500)),
];

// A limit of 0 is none.
#[test]
fn limits_are_set_on_the_stream(rt: HostRuntime) {
    for (given, expected) in LIMITS {
        let time = Time::new();
        let stream = Slow::new(&time, 1);
        let limits = StreamLimits {
            read: *given,
            write: *given,
        };
        let answer = limits.set(&stream);
        let set = expected.map(Duration::from_millis);
        assert!(rt;
            answer.is_ok() && stream.read_limit.get() == set && stream.write_limit.get() == set,
            "{given:?}"
        );
    }
}
