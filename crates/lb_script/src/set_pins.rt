//! Pins that a script sets and clears.
ghost use Rattle.std.specs.Prelude.{◌≡◌, IfOk};
ghost use Rattle.std.specs.Option.{option_copied};
ghost use Rattle.server_state.specs.Farm.{set_of};
ghost use Rattle.lb_script.specs.SetPins.{clear_in, pin_key, set_in, wanted_in};

use crate::asking::read_asked;
use crate::keys::read_key;
use crate::servers::find_server;
use crate::words::read_number;
use lb_config::BackendConfig;
use lb_config_parameters::StickTable;
use lb_config_values::ServerConfig;
use lb_desk_model::SetPin;
use lb_types::{Moment, ServerId, ServerSet};
use lb_types_text::Parts;
use pin_set::{PinId, PinKey};
use std::alloc::{AllocError, Global};

/// The pin that the words after `set` set.
#[tactic(auto, unfolding(crate::specs::SetPins::set_in))]
pub(crate) fn read_set(
    alloc: Global,
    backend: &BackendConfig,
    words: &mut Parts,
) -> Result<Option<SetPin>, AllocError>
    ensures { IfOk result (λ set. set ≡ set_in backend.now words.old) }
{
    let Some(moment) = words.next_part() else {
        return Ok(None);
    };
    let Some(word) = words.next_part() else {
        return Ok(None);
    };
    let Some(place) = words.next_part() else {
        return Ok(None);
    };
    let Some(moment) = read_number(moment) else {
        return Ok(None);
    };
    let Some(key) = read_pin_key(alloc, backend.rules().table(), word)? else {
        return Ok(None);
    };
    let Some(server) = find_server(backend.servers(), place) else {
        return Ok(None);
    };
    let Some(asked) = read_asked(alloc, backend.servers(), words)? else {
        return Ok(None);
    };
    let want = set_of(asked.rules.servers());
    Ok(Some(SetPin {
        name: PinId { key, want },
        server,
        cost: asked.cost,
        moment: Moment::from_millis(moment),
    }))
}

/// The name of the pin that the words after `clear` clear.
#[tactic(auto, unfolding(crate::specs::SetPins::clear_in))]
pub(crate) fn read_clear(
    alloc: Global,
    backend: &BackendConfig,
    words: &mut Parts,
) -> Result<Option<PinId>, AllocError>
    ensures { IfOk result (λ name. name ≡ clear_in backend.now words.old) }
{
    let Some(word) = words.next_part() else {
        return Ok(None);
    };
    let Some(key) = read_pin_key(alloc, backend.rules().table(), word)? else {
        return Ok(None);
    };
    let Some(want) = read_wanted(backend.servers(), words) else {
        return Ok(None);
    };
    Ok(Some(PinId { key, want }))
}

/// The key of a pin that the word is. None where it is no key of the table's type, and for `-`.
fn read_pin_key(
    alloc: Global,
    table: Option<&StickTable>,
    word: &[u8],
) -> Result<Option<PinKey>, AllocError>
    ensures { IfOk result (λ key. key ≡ pin_key (option_copied table.entry) word.now) }
{
    match read_key(alloc, table, word)? {
        Some(key) => Ok(key),
        None => Ok(None),
    }
}

/// The set of the servers that the words name.
fn read_wanted(servers: &[ServerConfig], words: &mut Parts) -> Option<ServerSet>
    ensures { result ≡ wanted_in servers.now words.old }
{
    let mut set = ServerSet::empty();
    while let Some(word) = words.next_part() {
        let Some(server) = find_server(servers, word) else {
            return None;
        };
        set = set.with(server);
    }
    Some(set)
}

/// The set of the servers in the list.
fn set_of(servers: &[ServerId]) -> ServerSet
    ensures { result ≡ set_of servers.now }
{
    let mut set = ServerSet::empty();
    for server in servers {
        set = set.with(*server);
    }
    set
}
