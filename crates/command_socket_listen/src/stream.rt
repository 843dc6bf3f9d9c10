use std::io;
use std::io::{Read, Write};
use std::net::{OpenStream, Shutdown, TcpStream};
use std::os::unix::net::UnixStream;
use std::time::Duration;

/// An operator's connection. A read or a write that waits 10 s for the operator fails as `WouldBlock`.
#[derive(Debug, Drop)]
pub enum CommandStream {
    Tcp(TcpStream),
    Unix(UnixStream),
}

impl Read for CommandStream {
    fn read(&mut self, buffer: &mut [u8]) -> io::Result<usize> {
        match self {
            CommandStream::Tcp(stream) => stream.read(buffer),
            CommandStream::Unix(stream) => stream.read(buffer),
        }
    }
}

impl Write for CommandStream {
    fn write(&mut self, bytes: &[u8]) -> io::Result<usize> {
        match self {
            CommandStream::Tcp(stream) => stream.write(bytes),
            CommandStream::Unix(stream) => stream.write(bytes),
        }
    }

    fn flush(&mut self) -> io::Result<()> {
        Ok(())
    }
}

impl OpenStream for CommandStream {
    fn shutdown(&self, how: Shutdown) -> io::Result<()> {
        match self {
            CommandStream::Tcp(stream) => stream.shutdown(how),
            CommandStream::Unix(stream) => stream.shutdown(how),
        }
    }

    fn set_read_timeout(&self, limit: Option<Duration>) -> io::Result<()> {
        match self {
            CommandStream::Tcp(stream) => stream.set_read_timeout(limit),
            CommandStream::Unix(stream) => stream.set_read_timeout(limit),
        }
    }

    fn set_write_timeout(&self, limit: Option<Duration>) -> io::Result<()> {
        match self {
            CommandStream::Tcp(stream) => stream.set_write_timeout(limit),
            CommandStream::Unix(stream) => stream.set_write_timeout(limit),
        }
    }
}
