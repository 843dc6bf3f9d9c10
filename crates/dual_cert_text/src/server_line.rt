ghost use Rattle.std.specs.Prelude.{◌≡◌, ◌<◌, ◌≤◌, ◌∷◌, [], true, length, OnOk};
ghost use Rattle.std.specs.Option.{option_map_or};
ghost use Rattle.dual_cert_text.specs.ServerLines.{AreDistinct, server_named, usage_of, server_words_of, in_range, server_at};

use crate::TextFault;
use crate::words::{is, read_keyed};
use dual_cert_plan::{PricedServer, Server};
use lb_types::{MAX_SERVERS, Name};
use lb_types_text::Parts;

/// What a server line says of its server, in numbers of any size.
#[derive(Clone, Copy, Debug)]
pub struct Usage {
    /// None where the server is off.
    pub capacity: Option<u64>,
    pub price: u64,
}

/// A server line's words.
#[derive(Clone, Copy, Debug)]
pub struct ServerWords {
    pub name: Name,
    pub usage: Usage,
}

/// The number of the server with this name.
pub(crate) fn server_named(servers: &[PricedServer], word: &[u8]) -> Option<usize>
    ensures { result ≡ server_named servers.now word.now }
{
    servers
        .iter()
        .position(|server| is(server.server.name.as_bytes(), word))
}

/// The number of the server with this name. It is looked for from the server `from` on first, since names are mostly in
/// the order of the servers.
pub(crate) fn server_named_from(servers: &[PricedServer], from: usize, word: &[u8]) -> Option<usize>
    requires within { from ≤ length servers.now }
    requires distinct { AreDistinct servers.now }
    ensures { result ≡ server_named servers.now word.now }
{
    let (earlier, later) = servers.split_at(from);
    match server_named(later, word) {
        Some(place) => Some(from + place),
        None => server_named(earlier, word),
    }
}

#[tactic(auto, unfolding(crate::specs::ServerLines::usage_of))]
fn read_usage(is_priced: bool, words: &mut Parts) -> Option<Usage>
    ensures { result ≡ usage_of is_priced words.old }
{
    let first = words.next_part()?;
    let Some(second) = words.next_part() else {
        return is(first, b"off").then_some(Usage {
            capacity: None,
            price: 0,
        });
    };
    if is_priced {
        return read_priced(first, second, words);
    }
    if words.next_part().is_some() {
        return None;
    }
    let capacity = read_keyed(b"cap", first, second)?;
    Some(Usage {
        capacity: Some(capacity),
        price: 0,
    })
}

#[tactic(auto, unfolding(crate::specs::ServerLines::usage_of))]
fn read_priced(first: &[u8], second: &[u8], words: &mut Parts) -> Option<Usage>
    ensures { result ≡ usage_of true (first.now ∷ second.now ∷ words.old) }
{
    let third = words.next_part()?;
    let fourth = words.next_part()?;
    if words.next_part().is_some() {
        return None;
    }
    read_capped(first, second, third, fourth)
}

#[tactic(auto, unfolding(crate::specs::ServerLines::usage_of))]
fn read_capped(first: &[u8], second: &[u8], third: &[u8], fourth: &[u8]) -> Option<Usage>
    ensures { result ≡ usage_of true (first.now ∷ second.now ∷ third.now ∷ fourth.now ∷ []) }
{
    let capacity = read_keyed(b"cap", first, second)?;
    let price = read_keyed(b"price", third, fourth)?;
    Some(Usage {
        capacity: Some(capacity),
        price,
    })
}

#[tactic(auto, unfolding(crate::specs::ServerLines::server_words_of))]
fn read_server_words(
    is_priced: bool,
    servers: &[PricedServer],
    words: &mut Parts,
) -> Option<ServerWords>
    ensures { result ≡ server_words_of is_priced servers.now words.old }
{
    let name = Name::read(words.next_part()?).ok()?;
    if server_named(servers, name.as_bytes()).is_some() {
        return None;
    }
    let usage = read_usage(is_priced, words)?;
    Some(ServerWords { name, usage })
}

/// The server that line `number` declares after these servers.
#[tactic(auto, unfolding(crate::specs::ServerLines::server_at))]
pub fn read_server(
    number: u64,
    is_priced: bool,
    servers: &[PricedServer],
    words: &mut Parts,
) -> Result<PricedServer, TextFault>
    ensures exact { result ≡ server_at number is_priced servers.now words.old }
    ensures few { OnOk result (length servers.now < MAX_SERVERS) }
{
    let said = read_server_words(is_priced, servers, words).ok_or(TextFault::BadLine(number))?;
    if servers.len() >= MAX_SERVERS {
        return Err(TextFault::TooLarge);
    }
    if !is_in_range(&said.usage) {
        return Err(TextFault::TooLarge);
    }
    let capacity = said.usage.capacity.map(|capacity| capacity as u32);
    Ok(PricedServer {
        server: Server {
            name: said.name,
            capacity,
        },
        price: said.usage.price,
    })
}

fn is_in_range(usage: &Usage) -> bool
    ensures { result ≡ in_range usage.now }
{
    usage.capacity.is_none_or(|capacity| capacity < 1 << 32) && usage.price < 1 << 40
}
