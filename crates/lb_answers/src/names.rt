//! Servers and numbers, as answers say them.
ghost use Rattle.dual_cert_write.specs.Sending.{Sends};
ghost use Rattle.lb_answers.specs.Names.{labelled, server_word, server_behind};

use dual_cert_write::sending::{Sent, send};
use itoa::Buffer;
use lb_desk_model::BackendServer;
use lb_types::{Place, ServerId};
use lb_types_counted::Counted;
use std::io::Write;

/// Sends the label, and the number after it.
pub(crate) fn send_labelled<W: Write>(
    out: &mut Counted<W>,
    sent: Sent,
    label: &[u8],
    number: u64,
) -> Sent
    ensures { Sends out.old sent out.new result (labelled label.now number) }
{
    let mut digits = Buffer::new();
    let sent = send(out, sent, label);
    send(out, sent, digits.format(number).as_bytes())
}

/// Sends the server's name, or `#` and its number where it isn't one of the servers.
#[tactic(auto, unfolding(crate::specs::Names::server_word))]
pub(crate) fn send_server<W: Write>(
    out: &mut Counted<W>,
    sent: Sent,
    servers: &[BackendServer],
    server: ServerId,
) -> Sent
    ensures { Sends out.old sent out.new result (server_word servers.now server) }
{
    match servers.get(server.index()) {
        Some(listed) => send(out, sent, listed.name.as_bytes()),
        None => send_labelled(out, sent, b"#", server.index() as u64),
    }
}

/// Sends a space and the server, if there is one.
pub(crate) fn send_server_behind<W: Write>(
    out: &mut Counted<W>,
    sent: Sent,
    servers: &[BackendServer],
    server: Place,
) -> Sent
    ensures { Sends out.old sent out.new result (server_behind servers.now server) }
{
    let Some(server) = server else {
        return sent;
    };
    let sent = send(out, sent, b" ");
    send_server(out, sent, servers, server)
}
