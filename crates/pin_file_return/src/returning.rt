ghost use Rattle.std.specs.Prelude.{◌≡◌, ◌+◌, ◌≤◌, IfOk, All, find, length, map};
ghost use Rattle.std.specs.Option.{option_copied};
ghost use Rattle.lb_desk_model.specs.Sets.{set_pin};
ghost use Rattle.pin_file.specs.Files.{IsFilePin};
ghost use Rattle.pin_file.specs.Texts.{has_name};
ghost use Rattle.pin_file_return.specs.Returns.{back_in_table, pins_of, returned_pins};

use crate::back::Returned;
use crate::coming_back::come_back;
use crate::kept::Kept;
use lb_config::BackendConfig;
use lb_config_parameters::StickTable;
use lb_config_values::ServerConfig;
use lb_desk_model::SetPin;
use lb_types::{Moment, Name};
use pin_file::{BackendPins, FilePin, PinFile};
use std::alloc::{AllocError, Global};
use std::hash::BuildHasher;

/// What comes back of the file to the backend of this name at this moment.
///
/// A pin comes back if it is at a server, if its server and those that it wants are in the configuration, and if the table holds its key:
/// in a table of type `ip` an address, in one of type `string` at most `len` bytes. Of pins that have one name by now the one used last
/// comes back, and of all these no more than the table's size, those used last. A backend without a table, or that the file doesn't have,
/// gets none. A pin was used as long before `now` as it was before the file was made, but not before the clock's start.
///
/// It costs one walk over the backend's pins, a look at each server for each name, and one look-up by hash and a copy of the key for each
/// pin that comes back. The only error is out of memory.
pub fn returned<S: BuildHasher + Drop>(
    alloc: Global,
    hasher: S,
    backend: &BackendConfig,
    file: &PinFile,
    now: Moment,
) -> Result<Returned, AllocError>
    ensures pins { IfOk result (λ back. map (λ s. set_pin s s.moment) back.pins.items ≡ returned_pins backend.now file.now now) }
    ensures left_out { IfOk result (λ back. length back.pins.items + back.left_out ≡ length (pins_of backend.now.name file.now)) }
{
    let pins = pins_of(&backend.name(), file);
    let Some(table) = backend.rules().table() else {
        return Ok(Returned {
            pins: Vec::new(alloc),
            left_out: pins.len(),
        });
    };
    let back = back_in_table(alloc, hasher, backend.servers(), table, now, pins)?;
    let left_out = pins.len() - back.len();
    Ok(Returned {
        pins: back,
        left_out,
    })
}

/// The pins that the file has of the backend of this name.
fn pins_of<'a>(name: &Name, file: &'a PinFile) -> &'a [FilePin]
    ensures exact { result.now ≡ pins_of name.now file.now }
    ensures lawful { All IsFilePin result.now }
{
    match find_backend(file.backends(), name) {
        Some(backend) => backend.pins.as_slice(),
        None => &[],
    }
}

fn find_backend<'a>(backends: &'a [BackendPins], name: &Name) -> Option<&'a BackendPins>
    ensures { option_copied result ≡ find (has_name name.now) backends.now }
{
    backends
        .iter()
        .find(|backend| backend.name.as_bytes() == name.as_bytes())
}

/// Those of the pins that come back to the table, in order of last use.
fn back_in_table<S: BuildHasher + Drop>(
    alloc: Global,
    hasher: S,
    servers: &[ServerConfig],
    table: &StickTable,
    now: Moment,
    pins: &[FilePin],
) -> Result<Vec<SetPin>, AllocError>
    requires { All IsFilePin pins.now }
    ensures exact { IfOk result (λ sets. map (λ s. set_pin s s.moment) sets.items ≡ back_in_table servers.now table.now now pins.now) }
    ensures few { IfOk result (λ sets. length sets.items ≤ length pins.now) }
{
    let size = table.settings().size as usize;
    let mut kept = Kept::new(alloc, hasher);
    let mut rest = pins;
    while let Some((pin, older)) = rest.split_last() {
        if kept.len() == size {
            break;
        }
        if let Some(set) = come_back(alloc, servers, table.kind(), now, pin)? {
            kept.add(set)?;
        }
        rest = older;
    }
    kept.into_sets(alloc)
}
