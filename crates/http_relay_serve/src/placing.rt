ghost use Rattle.std.specs.Prelude.{◌≡◌, ◌+◌, ◌<◌, ◌≤◌, length};
ghost use Rattle.std.specs.Vec.{vec_len, vec_capacity};
ghost use Rattle.http_relay_serve.specs.Parts.{Prepares, sends};
ghost use Rattle.http_relay_serve.specs.Serves.{Places, port_seen, clock_seen};

use crate::{AskFault, BackendFault, Parcel, Queued, Routing};
use http_relay_exchange::Outgoing;
use http_relay_forward::{BodyKind, expects_continue, rewrite};
use http_relay_head::ReadHead;
use http_relay_queue::Queueing;
use http_relay_talk::Target;
use lb_desk_model::Request;
use lb_desk_ports::{Asked, Clock, Port};
use std::alloc::Global;

/// A request whose backend has named its server, with the head that the server gets.
#[derive(Debug, Drop)]
pub(crate) struct Prepared<'t> {
    pub(crate) target: Target<'t>,
    pub(crate) head: Vec<u8>,
    pub(crate) kind: BodyKind,
    pub(crate) expects_continue: bool,
}

impl<'t> Prepared<'t> {
    /// The request as it is sent, with what was read after the client's head.
    pub(crate) fn outgoing<'a>(&'a self, behind: &'a [u8]) -> Outgoing<'a>
        ensures { result ≡ sends self.now behind.now }
    {
        Outgoing::new(&self.head, self.kind, behind, self.expects_continue)
    }

    /// The request for a wait in the queue. There has to be room in the head's memory for what was read after the client's head.
    pub(crate) fn queue(self, behind: &[u8], queueing: Queueing) -> Queued<'t>
        requires { vec_len self.head + length behind.now ≤ vec_capacity self.head }
        ensures { result ≡ record { target = self.entry.target; request = sends self.entry behind.now; queueing = queueing } }
    {
        let Prepared {
            target,
            head,
            kind,
            expects_continue,
        } = self;
        Queued {
            target,
            request: Parcel::new(head, kind, behind, expects_continue),
            queueing,
        }
    }
}

/// Asks the backend for the request's server, and finds how that is reached and what its answer may teach.
#[tactic(auto, using(crate::proofs::Stages::placed, crate::proofs::Stages::unplaced))]
fn ask<'t, R, T: Routing, P: Port<R>>(
    rt: &R,
    alloc: Global,
    routing: &'t T,
    backend: usize,
    port: &mut P,
    request: Request,
) -> Result<Target<'t>, AskFault>
    requires { backend < T.backends routing.now }
    ensures { Places (T.routes routing.now) backend request (port_seen P.entries P.refusals port.old) (port_seen P.entries P.refusals port.new) result }
{
    let lesson = routing.lesson(alloc, backend, &request);
    let asked = match port.ask(rt, request) {
        Ok(asked) => asked,
        Err(refused) => return Err(AskFault::Refused(refused)),
    };
    match asked {
        Asked::Served(server, _) => match routing.target(backend, server) {
            Some(way) => Ok(Target::new(way, lesson)),
            None => Err(AskFault::UnknownServer),
        },
        Asked::NoServer => Err(AskFault::NoServer),
        Asked::NoSuchServer => Err(AskFault::NoSuchServer),
    }
}

/// Makes what the server gets of a request whose head was read, and asks its backend for the server. All memory is asked for before that.
pub(crate) fn prepare<'t, R, T: Routing, P: Port<R>, K: Clock<R>>(
    rt: &R,
    alloc: Global,
    clock: &mut K,
    routing: &'t T,
    backend: usize,
    port: &mut P,
    read: &ReadHead<'_>,
) -> Result<Prepared<'t>, BackendFault>
    requires { backend < T.backends routing.now }
    ensures prepares { Prepares (T.routes routing.now) backend read.now
        (port_seen P.entries P.refusals port.old) (port_seen P.entries P.refusals port.new)
        (clock_seen K.told K.pauses clock.old) (clock_seen K.told K.pauses clock.new) result }
    ensures pauses { K.pauses clock.new ≡ K.pauses clock.old }
{
    let head = read.head();
    let moment = clock.now(rt);
    let request = routing.request(alloc, backend, &head, moment)?;
    let mut text = rewrite(alloc, &head, routing.forwards_address(backend))?;
    // What a wait in the queue would need. The head's memory has room for it, so nothing is allocated.
    text.reserve(read.rest().len())?;
    let kind = read.body_kind();
    let waits = expects_continue(&head, kind);
    match ask(rt, alloc, routing, backend, port, request) {
        Ok(target) => Ok(Prepared {
            target,
            head: text,
            kind,
            expects_continue: waits,
        }),
        Err(fault) => Err(BackendFault::Ask(fault)),
    }
}
