//! Events of a backend, in the words of a script.
ghost use Rattle.std.specs.Prelude.{◌≡◌, map, length};
ghost use Rattle.dual_cert_write.specs.Sending.{Sends};
ghost use Rattle.lb_answers.specs.Events.{cost_text, rules_text, request_text, set_text, clear_text, wanted_server, wanted_text, result_word, setting_front, state_words, health_words, setting_behind, command_text, event_text, asked_server};

use crate::keys::{send_asked_key, send_key};
use crate::names::{send_labelled, send_server};
use dual_cert_write::sending::{Sent, send};
use lb_desk_model::{BackendServer, Event, Request, SetPin};
use lb_types::{MAX_SERVERS, Name, Place, ServerId, ServerSet};
use lb_types_counted::Counted;
use pin_set::PinId;
use server_state::{AdminState, Change, Setting};
use std::io::Write;

/// The server that the event names, if it names one: of a pin that is set, a connection, a check or a command.
pub fn asked_server(event: &Event) -> Place
    ensures { result ≡ asked_server event.now }
{
    match event {
        Event::Set(set) => Some(set.server),
        Event::Open(server) | Event::Close(server) | Event::Check(server, _) => Some(*server),
        Event::Command(change) => Some(change.server),
        Event::Serve(_)
        | Event::Clear(_)
        | Event::Expire(_)
        | Event::Snapshot
        | Event::Install(_) => None,
    }
}

/// Sends the words of an event of the backend of this name, which has these servers.
#[tactic(auto, unfolding(crate::specs::Events::event_text))]
pub(crate) fn send_event<W: Write>(
    out: &mut Counted<W>,
    sent: Sent,
    backend: &Name,
    servers: &[BackendServer],
    event: &Event,
) -> Sent
    ensures { Sends out.old sent out.new result (event_text backend.now servers.now event.now) }
{
    match event {
        Event::Serve(request) => send_request(out, sent, servers, request),
        Event::Set(set) => send_set(out, sent, servers, set),
        Event::Clear(name) => send_clear(out, sent, servers, name),
        Event::Open(server) => {
            let sent = send(out, sent, b"open ");
            send_server(out, sent, servers, *server)
        }
        Event::Close(server) => {
            let sent = send(out, sent, b"close ");
            send_server(out, sent, servers, *server)
        }
        Event::Expire(moment) => send_labelled(out, sent, b"expire ", moment.as_millis()),
        Event::Check(server, succeeded) => {
            let sent = send(out, sent, b"check ");
            let sent = send_server(out, sent, servers, *server);
            send(out, sent, result_word(*succeeded))
        }
        Event::Command(change) => send_command(out, sent, backend, servers, change),
        Event::Snapshot => send(out, sent, b"snapshot"),
        Event::Install(plan) => send_labelled(out, sent, b"install version ", plan.version()),
    }
}

/// Sends a request's moment and key, and the servers and the cost of its rules.
fn send_request<W: Write>(
    out: &mut Counted<W>,
    sent: Sent,
    servers: &[BackendServer],
    request: &Request,
) -> Sent
    ensures { Sends out.old sent out.new result (request_text servers.now request.now) }
{
    let sent = send_labelled(out, sent, b"serve ", request.moment.as_millis());
    let sent = send(out, sent, b" ");
    let sent = send_asked_key(out, sent, &request.key);
    let sent = send_rules(out, sent, servers, request.rules.servers());
    send_cost(out, sent, request.cost)
}

/// Sends the moment of a pin that is set, its key and server, the servers that it wants, and its cost.
fn send_set<W: Write>(
    out: &mut Counted<W>,
    sent: Sent,
    servers: &[BackendServer],
    set: &SetPin,
) -> Sent
    ensures { Sends out.old sent out.new result (set_text servers.now set.now) }
{
    let sent = send_labelled(out, sent, b"set ", set.moment.as_millis());
    let sent = send(out, sent, b" ");
    let sent = send_key(out, sent, &set.name.key);
    let sent = send(out, sent, b" ");
    let sent = send_server(out, sent, servers, set.server);
    let sent = send_wanted(out, sent, servers, set.name.want);
    send_cost(out, sent, set.cost)
}

/// Sends the key of a pin that is cleared, and the servers that it wants.
fn send_clear<W: Write>(
    out: &mut Counted<W>,
    sent: Sent,
    servers: &[BackendServer],
    name: &PinId,
) -> Sent
    ensures { Sends out.old sent out.new result (clear_text servers.now name.now) }
{
    let sent = send(out, sent, b"clear ");
    let sent = send_key(out, sent, &name.key);
    send_wanted(out, sent, servers, name.want)
}

/// Sends a space before each server of the set, and the server.
fn send_wanted<W: Write>(
    out: &mut Counted<W>,
    sent: Sent,
    servers: &[BackendServer],
    want: ServerSet,
) -> Sent
    ensures { Sends out.old sent out.new result (wanted_text servers.now want) }
{
    let mut sent = sent;
    for index in 0..MAX_SERVERS {
        sent = send_wanted_server(out, sent, servers, want, ServerId::new(index as u8));
    }
    sent
}

/// Sends a space and the server, if the set holds it.
fn send_wanted_server<W: Write>(
    out: &mut Counted<W>,
    sent: Sent,
    servers: &[BackendServer],
    want: ServerSet,
    server: ServerId,
) -> Sent
    ensures { Sends out.old sent out.new result (wanted_server servers.now want server) }
{
    if !want.has(server) {
        return sent;
    }
    let sent = send(out, sent, b" ");
    send_server(out, sent, servers, server)
}

/// Sends a space before each of the rules' servers, and the server.
fn send_rules<W: Write>(
    out: &mut Counted<W>,
    sent: Sent,
    servers: &[BackendServer],
    rules: &[ServerId],
) -> Sent
    ensures { Sends out.old sent out.new result (rules_text servers.now rules.now) }
{
    let mut sent = sent;
    for server in rules {
        sent = send(out, sent, b" ");
        sent = send_server(out, sent, servers, *server);
    }
    sent
}

/// Sends a cost, where it isn't 1.
pub(crate) fn send_cost<W: Write>(out: &mut Counted<W>, sent: Sent, cost: u16) -> Sent
    ensures { Sends out.old sent out.new result (cost_text cost) }
{
    if cost == 1 {
        return sent;
    }
    send_labelled(out, sent, b" cost=", u64::from(cost))
}

/// What a check found.
fn result_word(succeeded: bool) -> &'static [u8]
    ensures { result.now ≡ result_word succeeded }
{
    if succeeded { b" ok" } else { b" fail" }
}

/// Sends the command that makes this change at a server of the backend of this name.
fn send_command<W: Write>(
    out: &mut Counted<W>,
    sent: Sent,
    backend: &Name,
    servers: &[BackendServer],
    change: &Change,
) -> Sent
    ensures { Sends out.old sent out.new result (command_text backend.now servers.now change.now) }
{
    let sent = send(out, sent, setting_front(change.setting));
    let sent = send(out, sent, backend.as_bytes());
    let sent = send(out, sent, b"/");
    let sent = send_server(out, sent, servers, change.server);
    send_setting(out, sent, change.setting)
}

/// The words before the server.
fn setting_front(setting: Setting) -> &'static [u8]
    ensures { result.now ≡ setting_front setting }
{
    match setting {
        Setting::Admin(_) | Setting::Health(_) => b"set server ",
        Setting::Weight(_) => b"set weight ",
        Setting::MaxConnections(_) => b"set maxconn server ",
        Setting::MaxPins(_) => b"set maxpins server ",
    }
}

/// Sends the words after the server.
fn send_setting<W: Write>(out: &mut Counted<W>, sent: Sent, setting: Setting) -> Sent
    ensures { Sends out.old sent out.new result (setting_behind setting) }
{
    match setting {
        Setting::Admin(state) => send(out, sent, state_words(state)),
        Setting::Health(is_up) => send(out, sent, health_words(is_up)),
        Setting::Weight(number) | Setting::MaxConnections(number) | Setting::MaxPins(number) => {
            send_labelled(out, sent, b" ", number)
        }
    }
}

fn state_words(state: AdminState) -> &'static [u8]
    ensures { result.now ≡ state_words state }
{
    match state {
        AdminState::Ready => b" state ready",
        AdminState::Drain => b" state drain",
        AdminState::Maint => b" state maint",
    }
}

fn health_words(is_up: bool) -> &'static [u8]
    ensures { result.now ≡ health_words is_up }
{
    if is_up {
        b" health up"
    } else {
        b" health down"
    }
}
