ghost use Rattle.std.specs.Prelude.{◌≡◌};
ghost use Rattle.http_relay_dial.specs.Dials.{Talk, talk_of};
ghost use Rattle.http_relay_exchange.specs.Exchanges.{Began, Invites, Sent};

use crate::heading::send_head;
use crate::{Outgoing, SendFault};
use http_relay_body::send_body;
use http_relay_forward::continue_text;
use http_relay_wire::{Wire, WireFault, write_all};

/// Sends the request, of whose opening so many bytes were taken. A client that waits for `100 Continue` gets it first, and then head
/// and body go to the server. The part of the body that came with the client's head goes out with the head. Of a body of so many
/// bytes that is all of it, and of a chunked one the chunks that came whole.
pub fn send_request<C: Wire, S: Wire>(
    request: &Outgoing<'_>,
    taken: usize,
    client: &mut C,
    server: &mut S,
) -> Result<(), SendFault>
    ensures { (before : Talk) → Began request.now taken before (talk_of S.written S.reading S.faults server.old)
        → Sent request.now
        (talk_of C.written C.reading C.faults client.old) (talk_of C.written C.reading C.faults client.new)
        before (talk_of S.written S.reading S.faults server.new) result }
{
    if let Err(fault) = invite(request, client) {
        return Err(SendFault::Continue(fault));
    }
    let front = send_head(request, taken, server)?;
    let behind = &request.behind()[front.len..];
    match send_body(front.rest, behind, client, server) {
        Ok(()) => Ok(()),
        Err(fault) => Err(SendFault::Body(fault)),
    }
}

/// Sends `100 Continue` to the client, where it waits for that.
fn invite<C: Wire>(request: &Outgoing<'_>, client: &mut C) -> Result<(), WireFault>
    ensures { Invites request.now
        (talk_of C.written C.reading C.faults client.old) (talk_of C.written C.reading C.faults client.new) result }
{
    if !request.expects_continue() {
        return Ok(());
    }
    write_all(client, continue_text())
}
