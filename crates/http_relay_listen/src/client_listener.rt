ghost use Rattle.std.specs.Prelude.{◌≡◌};
ghost use Rattle.http_relay_listen.specs.Sockets.{socket_of};

use libc::net::{_SS_SIZE, SOCK_CLOEXEC, SOCK_NONBLOCK, accept4};
use os::{FromRawFd, errno};
use std::io;
use std::net::{Ipv4Addr, OpenListener, SocketAddr, SocketAddrV4, TcpListener, TcpStream};
use std::os::fd::{AsRawFd, RawFd};

/// A listener for clients at an IPv4 address. What it accepts doesn't block, and has cost one system call; the listeners of std and
/// `mio` make a second one for it.
#[derive(Debug, Drop)]
pub struct ClientListener {
    socket: TcpListener,
}

impl ClientListener {
    /// The listener over this socket, which listens at an IPv4 address.
    pub(crate) fn new(socket: TcpListener) -> Self
        ensures { socket_of result ≡ socket }
    {
        ClientListener { socket }
    }

    /// The descriptor that the system gives next: all lower ones are open. If there is none, it is as high as can be.
    pub fn next_descriptor(&self) -> usize {
        match self.socket.try_clone() {
            Ok(same) => usize::try_from(same.as_raw_fd()).unwrap_or(usize::MAX),
            Err(_) => usize::MAX,
        }
    }
}

impl OpenListener for ClientListener {
    type Stream = TcpStream;

    fn accept(&self) -> io::Result<(TcpStream, SocketAddr)> {
        let mut address = [0; _SS_SIZE];
        let mut length = 128;
        let flags = SOCK_CLOEXEC | SOCK_NONBLOCK;
        let descriptor = unsafe {
            accept4(self.socket.as_raw_fd(), &mut address, &mut length, flags)
        };
        if descriptor < 0 {
            return Err(io::Error::from_raw_os_error(errno()));
        }
        let stream = unsafe { TcpStream::from_raw_fd(descriptor) };
        Ok((stream, SocketAddr::V4(address_in(&address))))
    }

    fn local_addr(&self) -> io::Result<SocketAddr> {
        self.socket.local_addr()
    }

    fn set_nonblocking(&self, nonblocking: bool) -> io::Result<()> {
        self.socket.set_nonblocking(nonblocking)
    }
}

impl AsRawFd for ClientListener {
    ghost use Rattle.std.specs.Prelude.{Some};
    ghost use Rattle.std.specs.Net.Tcp.{listener_raw_fd};

    ghost raw_fd = { λ listener. Some (listener_raw_fd listener.socket) };

    fn as_raw_fd(&self) -> RawFd {
        self.socket.as_raw_fd()
    }
}

/// The address that the system has put there (`sockaddr_in`): after two bytes for its family the port and the host, each with its
/// high byte first.
fn address_in(bytes: &[u8; _SS_SIZE]) -> SocketAddrV4 {
    let port = u16::from_be_bytes([bytes[2], bytes[3]]);
    SocketAddrV4::new(Ipv4Addr::new(bytes[4], bytes[5], bytes[6], bytes[7]), port)
}
