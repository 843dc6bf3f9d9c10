ghost use Rattle.std.specs.Prelude.{◌≡◌, IfOk};
ghost use Rattle.http_relay_listen.specs.Sockets.{socket_of};

use crate::ClientListener;
use http_relay_socket::StreamLimits;
use std::io;
use std::net::{Net, SocketAddr, SocketAddrV4, TcpListener, TcpStream};
use std::os::fd::OwnedFd;
use std::time::Duration;

/// How many milliseconds an accept waits for a connection before it reports that none came.
const TICK_MILLIS: u64 = 100;

/// Listens at this address, with the longest backlog that the system allows. What is accepted sends at once what it is given, and an
/// accept that waits 100 ms ends as `WouldBlock`. Port 0 stands for one that the system picks. The error is the system's, where the
/// address can't be bound.
pub fn listen<R: Net>(rt: &R, address: SocketAddrV4) -> io::Result<TcpListener> {
    let socket = bound(rt, address)?;
    socket.set_nonblocking(false)?;
    Ok(TcpListener::from(with_tick(OwnedFd::from(socket))?))
}

/// Listens at this address as `listen` does, except that its accepts don't wait: one ends as `WouldBlock` where no connection waits.
/// What it accepts doesn't block, and has these limits on reads and writes for calls that do, once it is set to. They are set here
/// once and cost no connection a system call.
pub fn listen_within<R: Net>(
    rt: &R,
    address: SocketAddrV4,
    limits: StreamLimits,
) -> io::Result<ClientListener> {
    let socket = bound(rt, address)?;
    // The system gives a connection the options of the socket that accepted it.
    limits.set(&socket)?;
    Ok(ClientListener::new(TcpListener::from(OwnedFd::from(socket))))
}

/// The listener over this socket, which listens at an IPv4 address already. Its accepts and what it accepts are as those of
/// `listen_within`; its backlog stays what it is. The error is the system's, where an option can't be set.
pub fn listen_over(socket: TcpListener, limits: StreamLimits) -> io::Result<ClientListener>
    ensures { IfOk result (λ listener. socket_of listener ≡ socket) }
{
    // Another name of the same socket: what is set here is set there.
    let same = TcpStream::from(OwnedFd::from(socket.try_clone()?));
    socket.set_nonblocking(true)?;
    same.set_nodelay(true)?;
    limits.set(&same)?;
    Ok(ClientListener::new(socket))
}

// A listening socket, whose accepts don't wait. Only streams have calls that set its options.
fn bound<R: Net>(rt: &R, address: SocketAddrV4) -> io::Result<TcpStream> {
    // The backlog of std's own listener is 128.
    let listener = mio::net::TcpListener::bind(rt, SocketAddr::V4(address))?;
    let socket = TcpStream::from(OwnedFd::from(listener));
    socket.set_nodelay(true)?;
    Ok(socket)
}

/// The listening socket, whose accepts now end as `WouldBlock` where none came for 100 ms. What it accepts has that limit on its
/// reads, until another is set. The error is the system's.
pub fn with_tick(socket: OwnedFd) -> io::Result<OwnedFd> {
    // A listener's limit on reads is the limit of its accepts.
    let socket = TcpStream::from(socket);
    socket.set_read_timeout(Some(Duration::from_millis(TICK_MILLIS)))?;
    Ok(OwnedFd::from(socket))
}
