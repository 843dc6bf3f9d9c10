ghost use Rattle.std.specs.Prelude.{◌≡◌, ◌++◌, None, IfOk, OnOk, filter_map, option_to_list, if◌then◌else◌};
ghost use Rattle.std.specs.Option.{option_and_then};
ghost use Rattle.lb_types.specs.Servers.{has, members};
ghost use Rattle.pin_file_return.specs.Saves.{key_bytes, name_at, saved_pin};

use lb_config_values::ServerConfig;
use lb_types::{MAX_SERVERS, Moment, Name, Place, ServerId, ServerSet};
use pin_file::{FilePin, NameList};
use pin_set::{KeyText, PinKey, TablePin};
use std::alloc::{AllocError, Global};

/// What a file says at this moment of a pin of the backend with these servers.
///
/// It has the pin's key, its servers by their names, its cost, and how long before `now` it was used. A pin that is at no server has none.
/// It costs a copy of the key and of each wanted server's name. The only error is out of memory.
#[tactic(auto, unfolding(crate::specs::Saves::saved_pin))]
pub fn saved_pin(
    alloc: Global,
    servers: &[ServerConfig],
    row: &TablePin,
    now: Moment,
) -> Result<FilePin, AllocError>
    ensures { IfOk result (λ pin. pin ≡ saved_pin servers.now now row.now) }
{
    Ok(FilePin {
        key: key_bytes(alloc, &row.pin.id.key)?,
        wanted: NameList::new(names_of(alloc, servers, row.pin.id.want)?),
        server: name_of(servers, row.pin.place),
        cost: row.pin.cost,
        age: now.as_millis().saturating_sub(row.last_use.as_millis()),
    })
}

/// The bytes of a key: of an address its text.
fn key_bytes(alloc: Global, key: &PinKey) -> Result<KeyText, AllocError>
    ensures { IfOk result (λ bytes. bytes ≡ key_bytes key.now) }
{
    match key {
        PinKey::Ipv4(address) => Ok(KeyText::new(address.to_string(alloc)?.into_bytes())),
        PinKey::Text(bytes) => bytes.clone(),
    }
}

/// The names of the set's servers.
fn names_of(
    alloc: Global,
    servers: &[ServerConfig],
    set: ServerSet,
) -> Result<Vec<Name>, AllocError>
    ensures { IfOk result (λ names. names.items ≡ filter_map (name_at servers.now) (members set)) }
{
    let mut names = Vec::new(alloc);
    if set.is_empty() {
        return Ok(names);
    }
    for i in 0..MAX_SERVERS {
        push_name(&mut names, name_in(servers, set, ServerId::new(i as u8)))?;
    }
    Ok(names)
}

/// The name of the server, if the set has it.
fn name_in(servers: &[ServerConfig], set: ServerSet, server: ServerId) -> Option<Name>
    ensures { result ≡ (if has set server then name_at servers.now server else None) }
{
    if set.has(server) {
        name_at(servers, server)
    } else {
        None
    }
}

fn push_name(names: &mut Vec<Name>, name: Option<Name>) -> Result<(), AllocError>
    ensures { OnOk result (names.new.items ≡ names.old.items ++ option_to_list name) }
{
    if let Some(name) = name {
        names.push(name)?;
    }
    Ok(())
}

/// The name of the server where the pin is, if it is at one.
fn name_of(servers: &[ServerConfig], place: Place) -> Option<Name>
    ensures { result ≡ option_and_then (name_at servers.now) place }
{
    name_at(servers, place?)
}

fn name_at(servers: &[ServerConfig], server: ServerId) -> Option<Name>
    ensures { result ≡ name_at servers.now server }
{
    Some(servers.get(server.index())?.name())
}
