ghost use Rattle.std.specs.Prelude.{◌<◌, IfOk};
ghost use Rattle.http_relay_dial.specs.Dials.{talk_of};
ghost use Rattle.http_relay_serve.specs.Parts.{Finds};

use crate::{Routing, ServeFault};
use http_relay_head::{HEAD_ROOM, ReadHead, read_head};
use http_relay_wire::Wire;
use lb_desk_ports::{Gate, Point};
use std::alloc::Global;
use std::net::Ipv4Addr;

/// A request whose head was read, and the backend that takes it.
#[derive(Debug, Drop)]
pub(crate) struct Found<'a> {
    pub(crate) read: ReadHead<'a>,
    pub(crate) backend: usize,
}

/// Reads the head into `room`, and finds the backend that takes it.
pub(crate) fn find<'a, R, T: Routing, G: Gate<R>, C: Wire>(
    rt: &R,
    alloc: Global,
    gate: &mut G,
    routing: &T,
    source: Ipv4Addr,
    client: &mut C,
    room: &'a mut [u8; HEAD_ROOM],
) -> Result<Found<'a>, ServeFault>
    ensures finds { Finds (T.routes routing.now) source
        (talk_of C.written C.reading C.faults client.old) (talk_of C.written C.reading C.faults client.new) result }
    ensures within { IfOk result (λ found. found.backend < T.backends routing.now) }
{
    let read = match read_head(alloc, client, room, source) {
        Ok(read) => read,
        Err(fault) => return Err(ServeFault::Head(fault)),
    };
    gate.at(rt, Point::HeadRead);
    let Some(backend) = routing.backend(&read.head()) else {
        return Err(ServeFault::NoBackend);
    };
    Ok(Found { read, backend })
}
