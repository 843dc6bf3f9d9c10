ghost use Rattle.std.specs.Prelude.{◌≡◌, IfOk, IfSome};
ghost use Rattle.http_relay_listen.specs.Sockets.{socket_of};
ghost use Rattle.lb_run_doors.specs.Doors.{door_at, door_view, limits_of};

use crate::fault::BindFault;
use crate::handed_socket::HandedSocket;
use http_relay_listen::{ClientListener, listen_over, listen_within};
use http_relay_socket::StreamLimits;
use lb_config::Frontend;
use lb_config_arguments::Endpoint;
use std::alloc::{AllocError, Global};
use std::net::{Net, SocketAddrV4};

/// Where clients of a frontend connect.
#[derive(Debug, Drop)]
pub struct ClientDoor {
    pub listener: ClientListener,
    pub endpoint: Endpoint,
    /// The place of the frontend among the configuration's.
    pub frontend: usize,
    /// How long each connection that is accepted waits for its client.
    pub limits: StreamLimits,
}

impl ClientDoor {
    /// Listens there for the frontend at this place, over the socket that was handed over for it, if there is one.
    pub(crate) fn open<R: Net>(
        rt: &R,
        alloc: Global,
        place: usize,
        frontend: &Frontend,
        endpoint: Endpoint,
        handed: Option<HandedSocket>,
    ) -> Result<Self, BindFault>
        ensures view { IfOk result (λ door. door_view door ≡ door_at place frontend.now endpoint) }
        ensures over { IfOk result (λ door. IfSome handed (λ socket. socket_of door.listener ≡ socket.socket)) }
    {
        let limits = limits_of(frontend);
        let listener = match handed {
            Some(handed) => listen_over(handed.socket, limits),
            None => listen_within(
                rt,
                SocketAddrV4::new(endpoint.address, endpoint.port),
                limits,
            ),
        };
        match listener {
            Ok(listener) => Ok(ClientDoor {
                listener,
                endpoint,
                frontend: place,
                limits,
            }),
            Err(_) => Err(BindFault::CannotBind(endpoint_text(alloc, endpoint)?)),
        }
    }

    /// Its address, as it is printed. The only error is out of memory.
    pub fn address_text(&self, alloc: Global) -> Result<Vec<u8>, AllocError> {
        endpoint_text(alloc, self.endpoint)
    }
}

/// A client may hold up each read and each write for as long as the frontend says.
fn limits_of(frontend: &Frontend) -> StreamLimits
    ensures { result ≡ limits_of frontend.now }
{
    StreamLimits {
        read: frontend.client_limit(),
        write: frontend.client_limit(),
    }
}

/// The address and the port, as `127.0.0.1:80`. The only error is out of memory.
pub(crate) fn endpoint_text(alloc: Global, endpoint: Endpoint) -> Result<Vec<u8>, AllocError> {
    let address = SocketAddrV4::new(endpoint.address, endpoint.port);
    let text = address.to_string(alloc)?;
    let mut bytes = Vec::new(alloc);
    bytes.extend_from_slice(text.as_bytes())?;
    Ok(bytes)
}
