//! What lines of plans and of sheets share: the heading, places, sets and costs.
ghost use Rattle.std.specs.Prelude.{◌≡◌, ℕ, ◌<◌, ◌≤◌, true, map, length};
ghost use Rattle.lb_types.specs.declared.limits.TheConstants.{MAX_SERVERS};
ghost use Rattle.lb_types.specs.Servers.{has};
ghost use Rattle.dual_cert_text.specs.Spellings.{text_of_lines, heading_lines, name_at, place_word, set_word};
ghost use Rattle.dual_cert_write.specs.Sending.{Sends, form_word, cost_text, member_text, line_end, HasListedSet};

use crate::sending::{Sent, send, send_line};
use dual_cert_plan::{PricedServer, Server};
use itoa::Buffer;
use lb_types::{Place, ServerId, ServerSet};
use lb_types_counted::Counted;
use lb_types_pins::PinKind;
use std::io::Write;

/// A server as a plan or a sheet lists it.
pub trait Listed {
    ghost use Rattle.dual_cert_plan.specs.declared.server.PricedServer.{PricedServer};

    // The server as a plan lists it.
    ghost priced: { Self → PricedServer };

    /// The server's name.
    fn name(&self) -> &[u8]
        ensures { result.now ≡ (priced self.now).server.name };
}

impl Listed for PricedServer {
    ghost priced = { λ server. server };

    fn name(&self) -> &[u8] {
        self.server.name.as_bytes()
    }
}

/// A server of a sheet is as one of a plan whose places have no price.
impl Listed for Server {
    ghost priced = { λ server. record { server = server; price = 0 } };

    fn name(&self) -> &[u8] {
        self.name.as_bytes()
    }
}

/// The second word of a text's first line.
fn form_word(is_second: bool) -> &'static [u8]
    ensures { result.now ≡ form_word is_second }
{
    if is_second { b"2" } else { b"1" }
}

/// Sends the first two lines of a text.
pub fn send_heading<W: Write>(
    out: &mut Counted<W>,
    sent: Sent,
    word: &[u8],
    is_second: bool,
    version: u64,
) -> Sent
    ensures { Sends out.old sent out.new result
        (text_of_lines (heading_lines word.now is_second version)) }
{
    let mut digits = Buffer::new();
    let sent = send_line(out, sent, word, &[form_word(is_second)]);
    send_line(out, sent, b"version", &[digits.format(version).as_bytes()])
}

/// The name of the server, and nothing where it isn't listed.
fn name_of<S: Listed>(servers: &[S], server: ServerId) -> &[u8]
    ensures { result.now ≡ name_at (map S.priced servers.now) server }
{
    match servers.get(server.index()) {
        Some(listed) => listed.name(),
        None => b"",
    }
}

/// The word for a place.
#[tactic(auto, unfolding(dual_cert_text::specs::Spellings::place_word))]
pub fn place_word<S: Listed>(servers: &[S], place: Place) -> &[u8]
    ensures { result.now ≡ place_word (map S.priced servers.now) place }
{
    match place {
        Some(server) => name_of(servers, server),
        None => b"-",
    }
}

/// Sends the server's name after a comma, if the set holds the server.
fn send_member<W: Write, S: Listed>(
    out: &mut Counted<W>,
    sent: Sent,
    servers: &[S],
    set: ServerSet,
    server: ServerId,
) -> Sent
    ensures { Sends out.old sent out.new result (member_text (map S.priced servers.now) set server) }
{
    if !set.has(server) {
        return sent;
    }
    let sent = send(out, sent, b",");
    send(out, sent, name_of(servers, server))
}

/// Sends the word for a set of the servers.
fn send_set<W: Write, S: Listed>(
    out: &mut Counted<W>,
    sent: Sent,
    servers: &[S],
    set: ServerSet,
) -> Sent
    requires few { length servers.now ≤ MAX_SERVERS }
    requires listed { (server : ℕ) → has set server ≡ true → server < length servers.now }
    ensures { Sends out.old sent out.new result (set_word (map S.priced servers.now) set) }
{
    let Some(first) = set.first() else {
        return send(out, sent, b"-");
    };
    let mut sent = send(out, sent, name_of(servers, first));
    for index in first.index() + 1..servers.len() {
        sent = send_member(out, sent, servers, set, ServerId::new(index as u8));
    }
    sent
}

/// Sends the cost at the end of a line, where the text is of version 2.
fn send_cost<W: Write>(out: &mut Counted<W>, sent: Sent, has_costs: bool, cost: u16) -> Sent
    ensures { Sends out.old sent out.new result (cost_text has_costs cost) }
{
    if !has_costs {
        return sent;
    }
    let mut digits = Buffer::new();
    let sent = send(out, sent, b" ");
    send(out, sent, digits.format(cost).as_bytes())
}

/// Sends the end of a row's or a group's line: its set, and its cost where the text is of version 2.
pub fn send_line_end<W: Write, S: Listed>(
    out: &mut Counted<W>,
    sent: Sent,
    servers: &[S],
    has_costs: bool,
    kind: &PinKind,
) -> Sent
    requires few { length servers.now ≤ MAX_SERVERS }
    requires listed { HasListedSet (length servers.now) kind.now }
    ensures { Sends out.old sent out.new result (line_end has_costs (map S.priced servers.now) kind.now) }
{
    let sent = send(out, sent, b" ");
    let sent = send_set(out, sent, servers, kind.permitted);
    let sent = send_cost(out, sent, has_costs, kind.cost);
    send(out, sent, b"\n")
}
