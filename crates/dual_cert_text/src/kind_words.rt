ghost use Rattle.std.specs.Prelude.{◌≡◌, ◌<◌, ◌≤◌, ◌&&◌, nat_le, true, length};
ghost use Rattle.lb_types.specs.declared.limits.TheConstants.{MAX_SERVERS};
ghost use Rattle.lb_types.specs.Servers.{with_server};
ghost use Rattle.lb_types_text.specs.Parts.{parts};
ghost use Rattle.dual_cert_text.specs.ServerLines.{AreDistinct};
ghost use Rattle.dual_cert_text.specs.RowLines.{is_dash, place_of, is_open, usable_named, members_of, set_of, cost_of};

use crate::server_line::{server_named, server_named_from};
use crate::words::{is, read_positive};
use dual_cert_plan::PricedServer;
use lb_types::{Place, ServerId, ServerSet};
use lb_types_text::Parts;

/// The servers that a word names.
#[derive(Clone, Copy, Debug)]
pub struct SetWord {
    /// Whether their names stood in the order of the servers, each once.
    pub is_rising: bool,
    pub servers: ServerSet,
}

impl SetWord {
    /// No server.
    fn empty() -> Self
        ensures { result ≡ record { is_rising = true; servers = 0 } }
    {
        SetWord {
            is_rising: true,
            servers: ServerSet::empty(),
        }
    }

    /// This set and the server, whose number must be at least `from`.
    fn with(self, from: usize, server: ServerId) -> Self
        ensures rising { result.is_rising ≡ (self.is_rising && nat_le from server) }
        ensures servers { result.servers ≡ with_server self.servers server }
    {
        SetWord {
            is_rising: self.is_rising && from <= server.index(),
            servers: self.servers.with(server),
        }
    }
}

fn is_dash(word: &[u8]) -> bool
    ensures { result ≡ is_dash word.now }
{
    is(word, b"-")
}

/// The place that the word names.
#[tactic(auto, unfolding(crate::specs::RowLines::place_of))]
pub fn read_place(servers: &[PricedServer], word: &[u8]) -> Option<Place>
    requires { length servers.now ≤ MAX_SERVERS }
    ensures { result ≡ place_of servers.now word.now }
{
    if is_dash(word) {
        return Some(None);
    }
    let server = server_named(servers, word)?;
    Some(Some(ServerId::new(server as u8)))
}

/// Whether the server of this number isn't off.
#[tactic(auto, unfolding(crate::specs::RowLines::is_open))]
fn is_open(servers: &[PricedServer], server: usize) -> bool
    requires { server < length servers.now }
    ensures { result ≡ is_open servers.now server }
{
    servers[server].server.capacity.is_some()
}

/// The usable server that the word names, looked for from the server `from` on first.
#[tactic(auto, unfolding(crate::specs::RowLines::usable_named))]
fn read_usable(servers: &[PricedServer], from: usize, word: &[u8]) -> Option<ServerId>
    requires few { length servers.now ≤ MAX_SERVERS }
    requires distinct { AreDistinct servers.now }
    requires within { from ≤ length servers.now }
    ensures { result ≡ usable_named servers.now word.now }
{
    let server = server_named_from(servers, from, word)?;
    if !is_open(servers, server) {
        return None;
    }
    Some(ServerId::new(server as u8))
}

/// The set that the word names.
#[tactic(auto, unfolding(crate::specs::RowLines::set_of))]
pub fn read_set(servers: &[PricedServer], word: &[u8]) -> Option<SetWord>
    requires few { length servers.now ≤ MAX_SERVERS }
    requires distinct { AreDistinct servers.now }
    ensures { result ≡ set_of servers.now word.now }
{
    if is_dash(word) {
        return Some(SetWord::empty());
    }
    read_members(servers, Parts::new(word, b','))
}

fn read_members(servers: &[PricedServer], mut names: Parts) -> Option<SetWord>
    requires few { length servers.now ≤ MAX_SERVERS }
    requires distinct { AreDistinct servers.now }
    ensures { result ≡ members_of servers.now names.entry }
{
    let mut found = SetWord::empty();
    let mut from = 0;
    while let Some(name) = names.next_part() {
        let server = read_usable(servers, from, name)?;
        found = found.with(from, server);
        from = server.index() + 1;
    }
    Some(found)
}

/// The cost at the end of a line.
#[tactic(auto, unfolding(crate::specs::RowLines::cost_of))]
pub fn read_cost(has_costs: bool, words: &mut Parts) -> Option<u64>
    ensures { result ≡ cost_of has_costs words.old }
{
    if !has_costs {
        return words.next_part().is_none().then_some(1);
    }
    let cost = words.next_part()?;
    if words.next_part().is_some() {
        return None;
    }
    read_positive(cost)
}
