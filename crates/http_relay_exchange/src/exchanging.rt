ghost use Rattle.std.specs.Prelude.{ℕ};
ghost use Rattle.http_relay_dial.specs.Dials.{Talk, talk_of};
ghost use Rattle.http_relay_exchange.specs.Exchanges.{Began, Exchanged};

use crate::sending::send_request;
use crate::{ExchangeFault, Outgoing};
use http_relay_body::copy_back;
use http_relay_wire::Wire;

/// Sends the request over a connection that has taken so many bytes of its opening, and then copies the response until the server
/// ends. It answers how many bytes that was, at most 2^64 - 1. Nothing of a response goes to the client before the whole request was
/// sent.
pub fn exchange<C: Wire, S: Wire>(
    request: &Outgoing<'_>,
    taken: usize,
    client: &mut C,
    server: &mut S,
) -> Result<u64, ExchangeFault>
    // The exchange begins with the connection as it was before it took these bytes.
    ensures { (before : Talk) → Began request.now taken before (talk_of S.written S.reading S.faults server.old)
        → Exchanged request.now
        (talk_of C.written C.reading C.faults client.old) (talk_of C.written C.reading C.faults client.new)
        before (talk_of S.written S.reading S.faults server.new) result }
{
    if let Err(fault) = send_request(request, taken, client, server) {
        return Err(ExchangeFault::Send(fault));
    }
    match copy_back(server, client) {
        Ok(count) => Ok(count),
        Err(fault) => Err(ExchangeFault::Copy(fault)),
    }
}
