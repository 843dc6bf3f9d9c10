ghost use Rattle.std.specs.Prelude.{◌≡◌, pos, ◌≤ℤ◌, IfSome, IfNone};
ghost use Rattle.lb_run_doors.specs.Handed.{IsWithout};

use lb_config_arguments::Endpoint;
use libc::net::{POLLOUT, poll};
use libc::types::pollfd;
use os::FromRawFd;
use std::net::{SocketAddr, TcpListener, TcpStream};
use std::os::fd::{AsRawFd, OwnedFd};

/// A socket that the process was handed over, which listens at an IPv4 address.
#[derive(Debug, Drop)]
pub struct HandedSocket {
    pub endpoint: Endpoint,
    pub socket: TcpListener,
}

impl HandedSocket {
    /// The socket of this descriptor, which was handed over. None if it is no listening IPv4 stream socket; it is closed then.
    pub(crate) fn of_descriptor(descriptor: i32) -> Option<Self>
        requires { pos 0 ≤ℤ descriptor }
    {
        let socket = owned(descriptor);
        let address = socket.local_addr().ok()?;
        let SocketAddr::V4(address) = address else {
            return None;
        };
        if !listens(&socket) {
            return None;
        }
        let endpoint = Endpoint {
            address: *address.ip(),
            port: address.port(),
        };
        Some(HandedSocket { endpoint, socket })
    }
}

/// Takes the first of these sockets that is at this address.
pub(crate) fn take_at(sockets: &mut Vec<HandedSocket>, endpoint: Endpoint) -> Option<HandedSocket>
    ensures at { IfSome result (λ socket. socket.endpoint ≡ endpoint) }
    ensures others { IfSome result (λ socket. IsWithout socket sockets.old.items sockets.new.items) }
    ensures none { IfNone result (sockets.new.items ≡ sockets.old.items) }
{
    let mut place = 0;
    while place < sockets.len() {
        if sockets[place].endpoint == endpoint {
            return Some(sockets.remove(place));
        }
        place += 1;
    }
    None
}

/// The owner of a descriptor that was handed over.
fn owned(descriptor: i32) -> TcpListener
    requires { pos 0 ≤ℤ descriptor }
{
    // Nobody else owns it: it is one of those that the process began with and that were handed over to it, and they are taken once,
    // before the program opens a file of its own that stays open.
    unsafe { TcpListener::from_raw_fd(descriptor) }
}

/// Whether this socket of IPv4 is a stream socket that listens. Of these alone the system never reports that they can be written or
/// have hung up, except of some that are connected.
fn listens(socket: &TcpListener) -> bool {
    let mut asked = [pollfd {
        fd: socket.as_raw_fd(),
        events: POLLOUT,
        revents: 0,
    }];
    poll(&mut asked, 0) == 0 && !is_connected(socket)
}

fn is_connected(socket: &TcpListener) -> bool {
    match socket.try_clone() {
        Ok(same) => TcpStream::from(OwnedFd::from(same)).peer_addr().is_ok(),
        Err(_) => false,
    }
}
