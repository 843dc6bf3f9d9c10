//! Pins of a stick table.
ghost use Rattle.std.specs.Prelude.{◌≡◌, map, flat_map, length};
ghost use Rattle.dual_cert_write.specs.Sending.{Sends};
ghost use Rattle.lb_answers.specs.Tables.{place_word, want_word, member_text, pin_line, type_word, rows_text, table_heading, table_text};

use crate::events::send_cost;
use crate::keys::send_key;
use crate::named_backend::{NamedBackend, NamedTable};
use crate::names::{send_labelled, send_server};
use dual_cert_write::sending::{Sent, send};
use lb_acl::TableType;
use lb_desk_model::BackendServer;
use lb_types::{MAX_SERVERS, Name, Place, ServerId, ServerSet};
use lb_types_counted::Counted;
use pin_set::TablePin;
use std::io::Write;

/// Sends the table's heading and a line for each pin, or that there is no table.
pub(crate) fn send_table<W: Write>(
    out: &mut Counted<W>,
    sent: Sent,
    backend: &NamedBackend<'_>,
    pins: &[TablePin],
) -> Sent
    ensures { Sends out.old sent out.new result
        (table_text backend.now.name backend.now.servers.now backend.now.table pins.now) }
{
    send_rows(out, sent, backend, pins.len(), pins)
}

/// Sends the heading of a table that has so many pins and a line for each of these, or that there is no table.
pub(crate) fn send_rows<W: Write>(
    out: &mut Counted<W>,
    sent: Sent,
    backend: &NamedBackend<'_>,
    used: usize,
    pins: &[TablePin],
) -> Sent
    ensures { Sends out.old sent out.new result
        (rows_text backend.now.name backend.now.servers.now backend.now.table used pins.now) }
{
    let Some(table) = backend.table else {
        return send(out, sent, b"no table\n");
    };
    let sent = send_heading(out, sent, &backend.name, table, used);
    send_pins(out, sent, backend.servers, pins)
}

/// Sends the table's name, type and size, and how many pins it has.
#[tactic(auto, unfolding(crate::specs::Tables::table_heading))]
fn send_heading<W: Write>(
    out: &mut Counted<W>,
    sent: Sent,
    backend: &Name,
    table: NamedTable,
    used: usize,
) -> Sent
    ensures { Sends out.old sent out.new result (table_heading backend.now table used) }
{
    let sent = send(out, sent, b"# table ");
    let sent = send(out, sent, backend.as_bytes());
    let sent = send(out, sent, b" type ");
    let sent = send(out, sent, type_word(table.key_type));
    let sent = send_labelled(out, sent, b" size ", u64::from(table.size));
    let sent = send_labelled(out, sent, b" used ", used as u64);
    send(out, sent, b"\n")
}

fn type_word(key_type: TableType) -> &'static [u8]
    ensures { result.now ≡ type_word key_type }
{
    match key_type {
        TableType::Ip => b"ip",
        TableType::Text(_) => b"string",
    }
}

/// Sends a line for each pin.
fn send_pins<W: Write>(
    out: &mut Counted<W>,
    sent: Sent,
    servers: &[BackendServer],
    pins: &[TablePin],
) -> Sent
    ensures { Sends out.old sent out.new result (flat_map (λ p. pin_line servers.now p) pins.now) }
{
    let mut sent = sent;
    for pin in pins {
        sent = send_pin(out, sent, servers, pin);
    }
    sent
}

/// Sends a pin's line.
#[tactic(auto, unfolding(crate::specs::Tables::pin_line))]
fn send_pin<W: Write>(
    out: &mut Counted<W>,
    sent: Sent,
    servers: &[BackendServer],
    kept: &TablePin,
) -> Sent
    ensures { Sends out.old sent out.new result (pin_line servers.now kept.now) }
{
    let pin = &kept.pin;
    let sent = send(out, sent, b"key=");
    let sent = send_key(out, sent, &pin.id.key);
    let sent = send(out, sent, b" want=");
    let sent = send_want(out, sent, servers, pin.id.want);
    let sent = send(out, sent, b" server=");
    let sent = send_place(out, sent, servers, pin.place);
    let sent = send_labelled(out, sent, b" use=", kept.last_use.as_millis());
    let sent = send_cost(out, sent, pin.cost);
    send(out, sent, b"\n")
}

/// Sends the server where a pin is, or `-`.
fn send_place<W: Write>(
    out: &mut Counted<W>,
    sent: Sent,
    servers: &[BackendServer],
    place: Place,
) -> Sent
    ensures { Sends out.old sent out.new result (place_word servers.now place) }
{
    match place {
        Some(server) => send_server(out, sent, servers, server),
        None => send(out, sent, b"-"),
    }
}

/// Sends the servers that a pin wants, or `-`.
fn send_want<W: Write>(
    out: &mut Counted<W>,
    sent: Sent,
    servers: &[BackendServer],
    want: ServerSet,
) -> Sent
    ensures { Sends out.old sent out.new result (want_word servers.now want) }
{
    let Some(first) = want.first() else {
        return send(out, sent, b"-");
    };
    let mut sent = send_server(out, sent, servers, first);
    for index in first.index() + 1..MAX_SERVERS {
        sent = send_member(out, sent, servers, want, ServerId::new(index as u8));
    }
    sent
}

/// Sends a comma and the server, if the set holds it.
fn send_member<W: Write>(
    out: &mut Counted<W>,
    sent: Sent,
    servers: &[BackendServer],
    set: ServerSet,
    server: ServerId,
) -> Sent
    ensures { Sends out.old sent out.new result (member_text servers.now set server) }
{
    if !set.has(server) {
        return sent;
    }
    let sent = send(out, sent, b",");
    send_server(out, sent, servers, server)
}
