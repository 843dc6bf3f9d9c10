//! One request and all that it meets.

use crate::body::Part;
use crate::byte_wire::Peer;
use crate::draw_response::Response;
use crate::head::{Head, HeadText, Word};
use crate::site::Site;
use http_relay_wire::WireFault;
use lb_desk_ports::{Asked, Pinning, Refused, ScriptedOpening};
use std::net::Ipv4Addr;

/// What the desk answers.
#[derive(Debug, Drop)]
pub(crate) struct Desk {
    /// To the request for a server.
    pub(crate) asked: Asked,
    /// To a pin that is set.
    pub(crate) pinning: Pinning,
    /// To the requests for a connection, in turn. Those after the last are opened.
    pub(crate) openings: Vec<ScriptedOpening>,
    /// The event that is refused, counted from 0, and how.
    pub(crate) refusing: Option<(u64, Refused)>,
}

/// One request and all that it meets.
#[derive(Drop)]
pub(crate) struct Round {
    pub(crate) site: Site,
    /// The client's address, as it is spelled and as it is.
    pub(crate) source: Word,
    pub(crate) address: Ipv4Addr,
    /// The clock's moment.
    pub(crate) start: u64,
    pub(crate) head: Head,
    pub(crate) text: HeadText,
    /// Where a byte of the head was replaced by one that is in no head.
    pub(crate) spoilt_at: Option<usize>,
    /// The parts of the body, if it is a chunked one.
    pub(crate) parts: Vec<Part>,
    /// All that the client would send.
    pub(crate) input: Vec<u8>,
    pub(crate) client: Peer,
    pub(crate) desk: Desk,
    /// The server, or how a dial fails.
    pub(crate) dial: Result<Peer, WireFault>,
    /// All that the server would send.
    pub(crate) response: Response,
}

impl Round {
    /// How many bytes of the client come.
    pub(crate) fn came(&self) -> usize {
        self.client.sends.min(self.input.len())
    }

    /// How many bytes of the client come after its head.
    pub(crate) fn came_behind(&self) -> usize {
        self.came().saturating_sub(self.text.bytes.len())
    }
}
