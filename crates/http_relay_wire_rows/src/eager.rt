ghost use Rattle.std.specs.Prelude.{◌≤◌, IfOk};

use http_relay_socket::EagerStream;
use std::cell::Cell;
use std::io;
use std::io::{ErrorKind, Read, Write};
use std::net::OpenStream;
use std::test::Fail;

/// A stream whose first calls would have to wait, but where it blocks.
#[derive(Debug, Drop)]
struct Counted {
    // How many calls end at once.
    ready: u32,
    blocks: Cell<bool>,
    // How often it was set.
    settings: Cell<u32>,
    is_settable: bool,
}

fn stream_of(ready: u32, is_settable: bool) -> Counted {
    Counted {
        ready,
        blocks: Cell::new(false),
        settings: Cell::new(0),
        is_settable,
    }
}

impl Counted {
    // Moves a byte of so many.
    fn answer(&mut self, most: usize) -> io::Result<usize>
        ensures { IfOk result (λ count. count ≤ most) }
    {
        if self.ready == 0 && !self.blocks.get() {
            return Err(ErrorKind::WouldBlock.into());
        }
        self.ready = self.ready.saturating_sub(1);
        Ok(most.min(1))
    }
}

impl Read for Counted {
    fn read(&mut self, buffer: &mut [u8]) -> io::Result<usize> {
        self.answer(buffer.len())
    }
}

impl Write for Counted {
    fn write(&mut self, bytes: &[u8]) -> io::Result<usize> {
        self.answer(bytes.len())
    }

    fn flush(&mut self) -> io::Result<()> {
        Ok(())
    }
}

impl OpenStream for Counted {
    fn set_nonblocking(&self, nonblocking: bool) -> io::Result<()> {
        if !self.is_settable {
            return Err(ErrorKind::Other.into());
        }
        self.blocks.set(!nonblocking);
        self.settings.set(self.settings.get().saturating_add(1));
        Ok(())
    }
}

// How many calls end at once, how many are made, and how often the stream is set in all, its end among that.
const ROWS: &[(u32, u32, u32)] = &[(0, 0, 0), (2, 2, 0), (0, 1, 2), (1, 2, 2), (1, 20, 2)];

// A stream is set where a call has to wait and at its end, and not at all where none has to.
#[test]
fn a_stream_is_set_where_it_has_to_wait(rt: HostRuntime) -> Result<(), Fail> {
    for (ready, calls, wanted) in ROWS {
        let mut stream = EagerStream::new(stream_of(*ready, true));
        let mut moved: u32 = 0;
        for call in 0..*calls {
            let count = match call % 2 {
                0 => stream.read(&mut [0; 1])?,
                _ => stream.write(b"x")?,
            };
            moved = moved.saturating_add(u32::from(count == 1));
        }
        let ended = stream.into_stream()?;
        assert!(rt;
            moved == *calls && !ended.blocks.get() && ended.settings.get() == *wanted,
            "{ready}, {calls}"
        );
    }
    Ok(())
}

// A call that has to wait fails where the stream can't be set, and one that needn't doesn't.
#[test]
fn a_stream_that_cannot_be_set_fails(rt: HostRuntime) -> Result<(), Fail> {
    let mut stream = EagerStream::new(stream_of(1, false));
    let first = stream.write(b"x")?;
    let second = stream.read(&mut [0; 1]).is_err();
    assert!(rt; first == 1 && second && stream.into_stream().is_ok());
    Ok(())
}
