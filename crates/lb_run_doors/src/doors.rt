ghost use Rattle.std.specs.Prelude.{◌≡◌, [], ◌∷◌, ◌++◌, map, IfOk, OnOk};
ghost use Rattle.lb_run_doors.specs.Doors.{door_at, door_view, doors_at, doors_from, doors_of};
ghost use Rattle.lb_run_doors.specs.Handed.{AllHaveDoors, KeepsAll};

use crate::ClientDoor;
use crate::client_door::endpoint_text;
use crate::fault::BindFault;
use crate::handed_socket::{HandedSocket, take_at};
use crate::no_bind::{no_bind, refuse_unnamed};
use command_socket_listen::CommandListener;
use lb_config::{Config, Frontend};
use lb_config_arguments::Endpoint;
use lb_config_keywords::SocketAddress;
use std::alloc::{AllocError, Global};
use std::fs::Files;
use std::net::Net;

/// The addresses of a configuration, all of them bound.
#[derive(Debug, Drop)]
pub struct Doors {
    /// One for each `bind`, in their order.
    pub clients: Vec<ClientDoor>,
    /// The command socket, if there is one.
    pub commands: Option<CommandListener>,
}

impl Doors {
    /// Binds all addresses, the command socket's last. A `bind` isn't bound if a socket of its address was handed over: it
    /// uses the socket. The first such `bind` gets the first such socket. Where an address can't be bound, those before it are free again.
    ///
    /// `Handed`, with `NoBind`: no `bind` takes one of the sockets. If none names its address, nothing was bound.
    pub fn open<R: Files + Net>(
        rt: &R,
        alloc: Global,
        config: &Config,
        handed: Vec<HandedSocket>,
    ) -> Result<Self, BindFault>
        ensures clients { IfOk result (λ doors. map door_view doors.clients.items ≡ doors_of config.now) }
        ensures handed { IfOk result (λ doors. AllHaveDoors handed.items doors.clients.items) }
    {
        let clients = client_doors(rt, alloc, config.frontends(), handed)?;
        let commands = match config.socket() {
            Some(address) => Some(command_door(rt, alloc, address)?),
            None => None,
        };
        Ok(Doors { clients, commands })
    }
}

fn client_doors<R: Net>(
    rt: &R,
    alloc: Global,
    frontends: &[Frontend],
    handed: Vec<HandedSocket>,
) -> Result<Vec<ClientDoor>, BindFault>
    ensures clients { IfOk result (λ doors. map door_view doors.items ≡ doors_from 0 frontends.now) }
    ensures handed { IfOk result (λ doors. AllHaveDoors handed.items doors.items) }
{
    refuse_unnamed(alloc, frontends, &handed)?;
    let mut waiting = handed;
    let mut doors = Vec::new(alloc);
    let mut place = 0;
    while place < frontends.len() {
        add_doors(
            rt,
            alloc,
            place,
            &frontends[place],
            &mut waiting,
            &mut doors,
        )?;
        place += 1;
    }
    match waiting.pop() {
        Some(socket) => Err(no_bind(alloc, frontends, &socket)?.into()),
        None => Ok(doors),
    }
}

/// Adds the doors of the frontend at this place.
fn add_doors<R: Net>(
    rt: &R,
    alloc: Global,
    place: usize,
    frontend: &Frontend,
    waiting: &mut Vec<HandedSocket>,
    doors: &mut Vec<ClientDoor>,
) -> Result<(), BindFault>
    ensures clients { OnOk result (map door_view doors.new.items ≡ map door_view doors.old.items ++ doors_at place frontend.now) }
    ensures handed { OnOk result (KeepsAll waiting.old.items doors.old.items waiting.new.items doors.new.items) }
{
    for endpoint in frontend.rules().binds() {
        add_door(rt, alloc, place, frontend, *endpoint, waiting, doors)?;
    }
    Ok(())
}

/// Adds the door at this address.
fn add_door<R: Net>(
    rt: &R,
    alloc: Global,
    place: usize,
    frontend: &Frontend,
    endpoint: Endpoint,
    waiting: &mut Vec<HandedSocket>,
    doors: &mut Vec<ClientDoor>,
) -> Result<(), BindFault>
    ensures client { OnOk result (map door_view doors.new.items ≡ map door_view doors.old.items ++ door_at place frontend.now endpoint ∷ []) }
    ensures handed { OnOk result (KeepsAll waiting.old.items doors.old.items waiting.new.items doors.new.items) }
{
    let handed = take_at(waiting, endpoint);
    doors.push(ClientDoor::open(rt, alloc, place, frontend, endpoint, handed)?)?;
    Ok(())
}

fn command_door<R: Files + Net>(
    rt: &R,
    alloc: Global,
    address: &SocketAddress,
) -> Result<CommandListener, BindFault> {
    match CommandListener::open(rt, alloc, address) {
        Ok(listener) => Ok(listener),
        Err(_) => Err(BindFault::CannotBind(command_address_text(alloc, address)?)),
    }
}

/// The address of the command socket, as it is printed.
fn command_address_text(alloc: Global, address: &SocketAddress) -> Result<Vec<u8>, AllocError> {
    match address {
        SocketAddress::Path(path) => {
            let mut bytes = Vec::new(alloc);
            bytes.extend_from_slice(path.as_bytes())?;
            Ok(bytes)
        }
        SocketAddress::Tcp(endpoint) => endpoint_text(alloc, *endpoint),
    }
}
