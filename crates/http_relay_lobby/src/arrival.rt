ghost use Rattle.std.specs.Prelude.{◌≡◌, ◌≤◌, ◌++◌, vec_len, OnOk};
ghost use Rattle.http_relay_head.specs.declared.scanning.TheConstants.{HEAD_ROOM};

use http_relay_head::HEAD_ROOM;
use http_relay_wire::WireFault;
use std::alloc::{AllocError, Global};
use std::net::{Ipv4Addr, SocketAddr};

/// The least room that is taken for what a client has sent, in bytes.
const LEAST_ROOM: usize = 64;

/// A connection of a client, on its way to a worker, and what was read of it.
#[derive(Debug, Drop)]
pub struct Arrival<S> {
    /// It is set not to block, and has the limits that the listener had which accepted it.
    pub stream: S,
    /// The client's address.
    pub source: Ipv4Addr,
    /// The place of the frontend that the client came to, in the configuration's order.
    pub frontend: usize,
    /// The first bytes that the client sent, which were read from the stream.
    pub head: Vec<u8>,
    /// How reading failed after these bytes. Without a fault the stream has what follows.
    pub failed: Option<WireFault>,
    pub ghost short: { vec_len head ≤ HEAD_ROOM },
}

impl<S: Drop> Arrival<S> {
    ghost use Rattle.std.specs.Prelude.{◌≡◌, ◌+◌, ◌++◌, [], None, Some, IfSome, IfOk, length};
    ghost use Rattle.std.specs.Option.{option_map};
    ghost use Rattle.http_relay_lobby.specs.Sources.{source_of};

    /// The connection as it was accepted for this frontend, of which nothing was read yet. None comes from an address that isn't IPv4.
    pub fn of(alloc: Global, stream: S, address: SocketAddr, frontend: usize) -> Option<Self>
        ensures source { option_map (λ arrival. arrival.source) result ≡ source_of address }
        ensures stream { IfSome result (λ arrival. arrival.stream ≡ stream) }
        ensures frontend { IfSome result (λ arrival. arrival.frontend ≡ frontend) }
        ensures head { IfSome result (λ arrival. arrival.head.items ≡ []) }
        ensures unfailed { IfSome result (λ arrival. arrival.failed ≡ None) }
    {
        match address {
            SocketAddr::V4(address) => Some(Arrival {
                stream,
                source: *address.ip(),
                frontend,
                head: Vec::new(alloc),
                failed: None,
            }),
            SocketAddr::V6(_) => None,
        }
    }

    /// The same connection, of which these bytes more were read. The only error is out of memory; it hands the stream
    /// back.
    pub fn with_read(self, bytes: &[u8]) -> Result<Self, S>
        requires { vec_len self.head + length bytes.now ≤ HEAD_ROOM }
        ensures head { IfOk result (λ arrival. arrival.head.items ≡ self.head.items ++ bytes.now) }
        ensures stream { IfOk result (λ arrival. arrival.stream ≡ self.stream) }
        ensures source { IfOk result (λ arrival. arrival.source ≡ self.source) }
        ensures frontend { IfOk result (λ arrival. arrival.frontend ≡ self.frontend) }
        ensures failed { IfOk result (λ arrival. arrival.failed ≡ self.failed) }
    {
        let Arrival {
            stream,
            source,
            frontend,
            head,
            failed,
        } = self;
        let mut head = head;
        if add(&mut head, bytes).is_err() {
            return Err(stream);
        }
        Ok(Arrival {
            stream,
            source,
            frontend,
            head,
            failed,
        })
    }

    /// The same connection, whose reading failed so.
    pub(crate) fn with_fault(self, fault: WireFault) -> Self
        ensures { result ≡ record self { failed = Some fault } }
    {
        let mut arrival = self;
        arrival.failed = Some(fault);
        arrival
    }

    /// How many bytes of a head may still be read.
    pub fn room_left(&self) -> usize
        ensures { vec_len self.now.head + result ≡ HEAD_ROOM }
    {
        HEAD_ROOM - self.head.len()
    }
}

/// Adds these bytes, which takes a room of 64 bytes, or of 128, and so on. A listener takes the rooms and workers give them back. The
/// C library keeps some of each size for each worker, which takes none itself, so each size costs memory permanently.
fn add(head: &mut Vec<u8>, bytes: &[u8]) -> Result<(), AllocError>
    ensures { OnOk result (head.new.items ≡ head.old.items ++ bytes.now) }
{
    if head.is_empty() {
        let room = bytes.len().checked_next_power_of_two();
        head.reserve(room.unwrap_or(LEAST_ROOM).max(LEAST_ROOM))?;
    }
    head.extend_from_slice(bytes)
}
