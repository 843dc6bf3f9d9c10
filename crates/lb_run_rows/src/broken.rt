use std::io;
use std::io::{ErrorKind, Read, Write};

/// A reader and writer whose every call fails.
#[derive(Drop)]
pub(crate) struct Broken {
    pub(crate) kind: ErrorKind,
}

impl Read for Broken {
    fn read(&mut self, _buf: &mut [u8]) -> io::Result<usize> {
        Err(io::Error::from(self.kind))
    }
}

impl Write for Broken {
    fn write(&mut self, _buf: &[u8]) -> io::Result<usize> {
        Err(io::Error::from(self.kind))
    }

    fn flush(&mut self) -> io::Result<()> {
        Err(io::Error::from(self.kind))
    }
}
