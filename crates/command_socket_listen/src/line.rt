use crate::CommandStream;
use http_relay_socket::{Deadline, Patience};
use http_relay_wire::WireFault;
use std::io;
use std::io::{ErrorKind, Read, Write};
use std::net::OpenStream;
use std::sync::atomic::{AtomicBool, Ordering};
use std::time::{Clock, Duration};

/// How many milliseconds an operator's line may take, from its first byte's wait to its end.
const LINE_MILLIS: u32 = 5000;

/// How many milliseconds an operator may take for its whole answer, from the first write on.
const ANSWER_MILLIS: u32 = 60_000;

/// How many milliseconds it may still take once `is_over` is set.
const REST_MILLIS: u32 = 5000;

/// How many milliseconds one write waits at most: the default of HAProxy's `stats timeout`.
const WRITE_MILLIS: u64 = 10_000;

/// An operator's connection with limits on its line and its answer, so that a slow operator holds up others, and the balancer's end, no
/// longer.
///
/// The line has to come within 5 s, however many reads that takes. Each write waits at most 10 s, and no write waits beyond 60 s after
/// the first one began, nor beyond 5 s after the first one that began once `is_over` was set. A read or a write whose limit has passed
/// fails as `TimedOut`, and one that waited for all of it as `WouldBlock`.
#[derive(Drop)]
pub struct LineStream<'a, K> {
    clock: &'a K,
    is_over: &'a AtomicBool,
    stream: CommandStream,
    line: Deadline<'a, K>,
    /// Is there from the first write on.
    answer: Option<Deadline<'a, K>>,
    /// Is there from the first write on that found that it is over.
    rest: Option<Deadline<'a, K>>,
}

impl<'a, K: Clock> LineStream<'a, K> {
    /// The connection, whose 5 s begin now.
    pub fn new(clock: &'a K, is_over: &'a AtomicBool, stream: CommandStream) -> Self {
        LineStream {
            clock,
            is_over,
            stream,
            line: Deadline::after(clock, LINE_MILLIS),
            answer: None,
            rest: None,
        }
    }

    /// The connection. Its reads and its writes wait as long as the last ones could.
    pub fn into_stream(self) -> CommandStream {
        self.stream
    }

    /// How long the next write may wait.
    fn next_write_wait(&mut self) -> io::Result<Duration> {
        let answer = self
            .answer
            .get_or_insert(Deadline::after(self.clock, ANSWER_MILLIS));
        let wait = answer.next_wait().map_err(error_of)?;
        if !self.is_over.load(Ordering::SeqCst) {
            return Ok(wait.min(Duration::from_millis(WRITE_MILLIS)));
        }
        let rest = self
            .rest
            .get_or_insert(Deadline::after(self.clock, REST_MILLIS));
        Ok(wait.min(rest.next_wait().map_err(error_of)?))
    }
}

impl<'a, K: Clock> Read for LineStream<'a, K> {
    fn read(&mut self, buffer: &mut [u8]) -> io::Result<usize> {
        let left = self.line.next_wait().map_err(error_of)?;
        self.stream.set_read_timeout(Some(left))?;
        self.stream.read(buffer)
    }
}

impl<'a, K: Clock> Write for LineStream<'a, K> {
    fn write(&mut self, bytes: &[u8]) -> io::Result<usize> {
        let wait = self.next_write_wait()?;
        self.stream.set_write_timeout(Some(wait))?;
        self.stream.write(bytes)
    }

    fn flush(&mut self) -> io::Result<()> {
        self.stream.flush()
    }
}

// A deadline that has passed, as the system reports a wait that was too long.
fn error_of(_passed: WireFault) -> io::Error {
    ErrorKind::TimedOut.into()
}
