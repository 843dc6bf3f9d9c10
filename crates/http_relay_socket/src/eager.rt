use std::io;
use std::io::{ErrorKind, Read, Write};
use std::net::OpenStream;
use std::os::fd::{AsRawFd, RawFd};

/// A stream that came set not to block. A call is made at once, which costs one system call. The first that would have to wait sets
/// the stream to block; it and those after it wait, under the limits that the stream has. So nothing is set for a peer that takes all
/// that it is sent at once.
#[derive(Debug, Drop)]
pub struct EagerStream<S> {
    stream: S,
    waits: bool,
}

impl<S> EagerStream<S> {
    /// The stream, which doesn't block.
    pub fn new(stream: S) -> Self {
        EagerStream {
            stream,
            waits: false,
        }
    }
}

impl<S: OpenStream + Drop> EagerStream<S> {
    /// The stream, which again doesn't block. The error is the system's.
    pub fn into_stream(self) -> io::Result<S> {
        let EagerStream { stream, waits } = self;
        if waits {
            stream.set_nonblocking(true)?;
        }
        Ok(stream)
    }

    // Lets calls wait from here on, where this was the first that had to. Says whether it was.
    fn begin_to_wait<T>(&mut self, answer: &io::Result<T>) -> io::Result<bool> {
        if self.waits || !had_to_wait(answer) {
            return Ok(false);
        }
        self.stream.set_nonblocking(false)?;
        self.waits = true;
        Ok(true)
    }
}

// Whether the call ended because it would have had to wait.
fn had_to_wait<T>(answer: &io::Result<T>) -> bool {
    match answer {
        Err(error) => error.kind() == ErrorKind::WouldBlock,
        Ok(_) => false,
    }
}

impl<S: AsRawFd> AsRawFd for EagerStream<S> {
    fn as_raw_fd(&self) -> RawFd {
        self.stream.as_raw_fd()
    }
}

impl<S: Read + OpenStream + Drop> Read for EagerStream<S> {
    fn read(&mut self, buffer: &mut [u8]) -> io::Result<usize> {
        let answer = self.stream.read(buffer);
        if self.begin_to_wait(&answer)? {
            return self.stream.read(buffer);
        }
        answer
    }
}

impl<S: Write + OpenStream + Drop> Write for EagerStream<S> {
    fn write(&mut self, bytes: &[u8]) -> io::Result<usize> {
        let answer = self.stream.write(bytes);
        if self.begin_to_wait(&answer)? {
            return self.stream.write(bytes);
        }
        answer
    }

    fn flush(&mut self) -> io::Result<()> {
        self.stream.flush()
    }
}
