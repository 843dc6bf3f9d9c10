ghost use Rattle.std.specs.Prelude.{◌≡◌, ◌++◌, ◌∷◌, true, bytes_eq, find, is_some, IfOk};
ghost use Rattle.dual_cert_sheet.specs.SheetSpellings.{sheet_spelling};
ghost use Rattle.lb_cli_haproxy.specs.Sheets.{IsSheetFor};

use crate::answer::Answer;
use crate::clients::{clients_of, places_of};
use crate::commands::{entries_in, servers_in};
use crate::moves::server_named;
use crate::refusal::Refusal;
use crate::sheet_farm::{bare_farm, farm_without, usable_servers};
use dual_cert_plan::Sheet;
use dual_cert_sheet_write::write_sheet;
use haproxy_admin::Server;
use haproxy_farm::farm_sheet;
use lb_types::{Counted, MAX_PINS};
use lb_types_text::cut;
use std::alloc::{AllocError, Global};

/// The sheet of HAProxy's servers and clients, in which one server takes no clients.
///
/// `target` is that server, as `BACKEND/SERVER`, `state` HAProxy's answer to `show servers state`, and `dump` its answer to `show table`
/// with a table's name. The other servers that are on take clients: each 5 per cent more than its even share, rounded up, or as many as
/// it has, if that is more. Entries that name none of the backend's servers are passed over.
///
/// Where there is no sheet to give, the answer is a line that says why. The only error is out of memory. It costs a few walks over the
/// texts, and one over the clients for each server.
pub fn sheet_answer(
    alloc: Global,
    target: &[u8],
    state: &[u8],
    dump: &[u8],
) -> Result<Answer, AllocError>
    ensures { IfOk result (λ answer. answer.is_good ≡ true → IsSheetFor target.now state.now dump.now answer.text.items) }
{
    match sheet_for(alloc, target, state, dump) {
        Ok(text) => Ok(Answer {
            is_good: true,
            text,
        }),
        Err(refusal) => Answer::refused(alloc, refusal),
    }
}

/// The sheet's text, or why there is none.
fn sheet_for(alloc: Global, target: &[u8], state: &[u8], dump: &[u8]) -> Result<Vec<u8>, Refusal>
    ensures { IfOk result (λ text. IsSheetFor target.now state.now dump.now text.items) }
{
    let Some((backend, gone)) = cut(target, b'/') else {
        return Err(Refusal::Target);
    };
    let servers = servers_in(alloc, backend, state)?;
    let entries = entries_in(alloc, dump)?;
    if !is_there(&servers, gone) {
        return Err(Refusal::Target);
    }
    let Some(bare) = bare_farm(alloc, &servers)? else {
        return Err(Refusal::BadFarm);
    };
    let clients = clients_of(alloc, &servers, &bare, &entries)?;
    if clients.len() as u64 > MAX_PINS {
        return Err(Refusal::BadFarm);
    }
    let places = places_of(alloc, &clients)?;
    let farm = farm_without(alloc, &servers, &bare, gone, &places)?;
    let Some(sheet) = farm_sheet(alloc, usable_servers(&servers, gone), &farm, &places)? else {
        return Err(Refusal::BadFarm);
    };
    let text = sheet_text(alloc, &sheet)?;
    Ok(text)
}

/// Whether a server has this name.
fn is_there(servers: &[Server], name: &[u8]) -> bool
    ensures { result ≡ is_some (find (λ server. bytes_eq server.name name.now) servers.now) }
{
    server_named(servers, name).is_some()
}

/// The text of the sheet.
fn sheet_text(alloc: Global, sheet: &Sheet) -> Result<Vec<u8>, AllocError>
    ensures { IfOk result (λ text. text.items ≡ sheet_spelling sheet.now) }
{
    let mut text = Counted::new(Vec::new(alloc));
    match write_sheet(sheet, &mut text) {
        Ok(()) => Ok(text.into_inner()),
        Err(_) => Err(AllocError),
    }
}
