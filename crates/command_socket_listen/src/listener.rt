use crate::CommandStream;
use crate::path::listen_at;
use http_relay_listen::{listen, rest_after};
use http_relay_socket::StreamLimits;
use lb_config_keywords::SocketAddress;
use std::alloc::{AllocError, Global};
use std::fs::Files;
use std::io::ErrorKind;
use std::net::{Net, SocketAddrV4, TcpListener};
use std::os::unix::net::UnixListener;
use std::sync::Wait;
use std::sync::atomic::{AtomicBool, Ordering};
use std::time::Clock;
use std::{fs, io};

/// How many milliseconds one read or one write waits for an operator: the default of HAProxy's `stats timeout`.
const LIMIT_MILLIS: u32 = 10_000;

/// What operators connect to, as `stats socket` defines it.
#[derive(Debug, Drop)]
pub struct CommandListener {
    place: Place,
}

#[derive(Debug, Drop)]
enum Place {
    Address(TcpListener),
    Path(UnixListener, String),
}

impl CommandListener {
    /// Listens there. At a path the socket can be used by its owner alone, and one that nobody listens on is replaced.
    ///
    /// The error is the system's, where the address can't be bound. At a path it is `AddrInUse` where somebody listens there, and
    /// `AlreadyExists` where another kind of file stands there, which is left alone. It is `InvalidInput` where the path isn't UTF-8
    /// or has more than 103 bytes.
    pub fn open<R: Files + Net>(
        rt: &R,
        alloc: Global,
        address: &SocketAddress,
    ) -> io::Result<Self> {
        let place = match address {
            SocketAddress::Tcp(endpoint) => {
                Place::Address(listen(rt, SocketAddrV4::new(endpoint.address, endpoint.port))?)
            }
            SocketAddress::Path(path) => {
                let Ok(path) = str::from_utf8(path.as_bytes()) else {
                    return Err(ErrorKind::InvalidInput.into());
                };
                let listener = listen_at(rt, alloc, path)?;
                Place::Path(listener, copy_of(alloc, path)?)
            }
        };
        Ok(CommandListener { place })
    }

    /// The next operator's connection, or none once `stop` is set. The connection waits at most 10 s for each read and each write. A
    /// stop is seen at most 100 ms late. An error of one accept ends nothing; after one that may last, such as too many open files,
    /// it rests for 10 ms.
    pub fn next_connection<R: Wait + Clock>(
        &self,
        rt: &R,
        stop: &AtomicBool,
    ) -> Option<CommandStream> {
        for _ in rt.forever() {
            if stop.load(Ordering::SeqCst) {
                break;
            }
            match self.accept() {
                Ok(stream) => return Some(stream),
                Err(error) => rest_after(rt, &error),
            }
        }
        None
    }

    /// Ends listening. A path is free again. The error is the system's, where its socket can't be removed.
    pub fn close<R: Files>(self, rt: &R) -> io::Result<()> {
        match self.place {
            Place::Address(_) => Ok(()),
            Place::Path(_, path) => fs::remove_file(rt, path.as_str()),
        }
    }

    // The next connection, with its limits.
    fn accept(&self) -> io::Result<CommandStream> {
        let stream = match &self.place {
            Place::Address(listener) => {
                let (stream, _) = listener.accept()?;
                CommandStream::Tcp(stream)
            }
            Place::Path(listener, _) => {
                let (stream, _) = listener.accept()?;
                CommandStream::Unix(stream)
            }
        };
        let limits = StreamLimits {
            read: Some(LIMIT_MILLIS),
            write: Some(LIMIT_MILLIS),
        };
        limits.set(&stream)?;
        Ok(stream)
    }
}

fn copy_of(alloc: Global, path: &str) -> Result<String, AllocError> {
    let mut copy = String::new(alloc);
    copy.push_str(path)?;
    Ok(copy)
}
