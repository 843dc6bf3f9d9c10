ghost use Rattle.std.specs.Prelude.{◌≡◌, ◌<◌, false, length, OnOk};
ghost use Rattle.lb_types.specs.declared.limits.TheConstants.{MAX_SERVERS};
ghost use Rattle.dual_cert_text.specs.ServerLines.{in_range, server_at, server_named, server_words_of, usage_of};
ghost use Rattle.sheet_format.specs.Texts.{room_said, with_room};

use crate::words::Words;
use dual_cert_plan::{PricedServer, Server};
use dual_cert_text::TextFault;
use dual_cert_text::server_line::{ServerWords, Usage};
use dual_cert_text::words::{is, read_keyed};
use lb_types::{MAX_PINS, MAX_SERVERS, Name};

/// The server that line `number` declares after these servers, with the largest capacity where the line says none.
#[tactic(auto, unfolding(dual_cert_text::specs::ServerLines::server_at))]
pub(crate) fn read_server(
    number: u64,
    servers: &[PricedServer],
    words: &mut Words,
) -> Result<PricedServer, TextFault>
    ensures exact { result ≡ server_at number false servers.now (with_room words.old) }
    ensures few { OnOk result (length servers.now < MAX_SERVERS) }
{
    let said = read_server_words(servers, words).ok_or(TextFault::BadLine(number))?;
    if servers.len() >= MAX_SERVERS {
        return Err(TextFault::TooLarge);
    }
    if !is_in_range(&said.usage) {
        return Err(TextFault::TooLarge);
    }
    let capacity = said.usage.capacity.map(|capacity| capacity as u32);
    Ok(PricedServer {
        server: Server {
            name: said.name,
            capacity,
        },
        price: said.usage.price,
    })
}

#[tactic(auto, unfolding(dual_cert_text::specs::ServerLines::server_words_of))]
fn read_server_words(servers: &[PricedServer], words: &mut Words) -> Option<ServerWords>
    ensures { result ≡ server_words_of false servers.now (with_room words.old) }
{
    let name = Name::read(words.next_word()?).ok()?;
    if server_named(servers, name.as_bytes()).is_some() {
        return None;
    }
    let usage = read_usage(words)?;
    Some(ServerWords { name, usage })
}

/// The number of the server with this name.
fn server_named(servers: &[PricedServer], name: &[u8]) -> Option<usize>
    ensures { result ≡ server_named servers.now name.now }
{
    servers
        .iter()
        .position(|server| is(server.server.name.as_bytes(), name))
}

/// What follows a server's name.
#[tactic(auto, unfolding(dual_cert_text::specs::ServerLines::usage_of))]
fn read_usage(words: &mut Words) -> Option<Usage>
    ensures { result ≡ usage_of false (room_said words.old) }
{
    let Some(first) = words.next_word() else {
        return Some(Usage {
            capacity: Some(MAX_PINS),
            price: 0,
        });
    };
    let Some(second) = words.next_word() else {
        return is(first, b"off").then_some(Usage {
            capacity: None,
            price: 0,
        });
    };
    if words.next_word().is_some() {
        return None;
    }
    let capacity = read_keyed(b"cap", first, second)?;
    Some(Usage {
        capacity: Some(capacity),
        price: 0,
    })
}

fn is_in_range(usage: &Usage) -> bool
    ensures { result ≡ in_range usage.now }
{
    usage.capacity.is_none_or(|capacity| capacity < 1 << 32) && usage.price < 1 << 40
}
