//! One pin of a file, as it comes back.
ghost use Rattle.std.specs.Prelude.{◌≡◌, Some, None, IfOk, IfSome, IfNone, position};
ghost use Rattle.std.specs.Option.{option_map};
ghost use Rattle.std.specs.Str.{bytes_eq};
ghost use Rattle.server_state.specs.Farm.{set_of};
ghost use Rattle.lb_config.specs.Finds.{server_place};
ghost use Rattle.lb_desk_model.specs.Sets.{set_pin};
ghost use Rattle.pin_file.specs.Files.{IsFilePin};
ghost use Rattle.pin_file_return.specs.Returns.{come_back, held_key, places_of};

use lb_acl::TableType;
use lb_config_arguments::read_ipv4;
use lb_config_values::ServerConfig;
use lb_desk_model::SetPin;
use lb_types::{MAX_SERVERS, Moment, Name, ServerId, ServerSet};
use pin_file::FilePin;
use pin_set::{KeyText, PinId, PinKey};
use std::alloc::{AllocError, Global};

/// The pin to set, if the pin of the file comes back. Only its key is copied.
#[tactic(auto, unfolding(crate::specs::Returns::come_back))]
pub(crate) fn come_back(
    alloc: Global,
    servers: &[ServerConfig],
    kind: TableType,
    now: Moment,
    pin: &FilePin,
) -> Result<Option<SetPin>, AllocError>
    requires { IsFilePin pin.now }
    ensures { IfOk result (λ set. option_map (λ s. set_pin s s.moment) set ≡ come_back servers.now kind now pin.now) }
{
    let Some(name) = &pin.server else {
        return Ok(None);
    };
    let Some(server) = find_server(servers, name) else {
        return Ok(None);
    };
    let Some(want) = wanted_set(servers, pin.wanted.as_slice()) else {
        return Ok(None);
    };
    let Some(key) = held_key(alloc, kind, pin.key.as_bytes())? else {
        return Ok(None);
    };
    Ok(Some(SetPin {
        name: PinId { key, want },
        server,
        cost: pin.cost,
        moment: Moment::from_millis(now.as_millis().saturating_sub(pin.age)),
    }))
}

/// The server of this name. It looks at each server at most once.
fn find_server(servers: &[ServerConfig], name: &Name) -> Option<ServerId>
    ensures { result ≡ server_place servers.now name.now }
{
    match position_of(servers, name) {
        Some(place) if place < MAX_SERVERS => Some(ServerId::new(place as u8)),
        _ => None,
    }
}

fn position_of(servers: &[ServerConfig], name: &Name) -> Option<usize>
    ensures { result ≡ position (λ server. bytes_eq server.name name.now) servers.now }
{
    servers
        .iter()
        .position(|server| server.name().as_bytes() == name.as_bytes())
}

/// The set of the servers of these names, if all of them are there.
fn wanted_set(servers: &[ServerConfig], names: &[Name]) -> Option<ServerSet>
    ensures { result ≡ option_map set_of (places_of servers.now names.now) }
{
    let mut set = ServerSet::empty();
    for name in names {
        let Some(server) = find_server(servers, name) else {
            return None;
        };
        set = set.with(server);
    }
    Some(set)
}

/// The key that the bytes are in a table of this type, if the table holds it whole.
fn held_key(alloc: Global, kind: TableType, bytes: &[u8]) -> Result<Option<PinKey>, AllocError>
    ensures { IfOk result (λ key. key ≡ held_key kind bytes.now) }
{
    match kind {
        TableType::Ip => Ok(read_ipv4(bytes).map(PinKey::Ipv4)),
        TableType::Text(len) => {
            if bytes.len() > len.get() {
                return Ok(None);
            }
            Ok(Some(PinKey::Text(KeyText::copied_from(alloc, bytes)?)))
        }
    }
}
