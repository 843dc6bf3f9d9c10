ghost use Rattle.std.specs.Prelude.{◌≡◌, IfOk, length, map, replicate};
ghost use Rattle.lb_desk_model.specs.Seen.{seen};
ghost use Rattle.lb_desk_model.specs.States.{opening};

use capacity_book::Book;
use lb_desk_model::{Backend, BackendServer};
use server_state::{Farm, ServerSettings};
use std::alloc::{AllocError, Global};

/// The servers that a desk begins with.
#[derive(Debug, Drop)]
pub struct Opening {
    pub farm: Farm,
    pub book: Book,
}

/// The backend's servers at its opening: as they are configured, with no result of a check, no pin and no connection.
///
/// It allocates memory for them, which is all that they ever have. The only error is out of memory.
pub fn open_servers(alloc: Global, backend: &Backend) -> Result<Opening, AllocError>
    ensures farm { IfOk result (λ servers. servers.farm ≡ (seen (opening backend.now)).farm) }
    ensures connections { IfOk result
        (λ servers. servers.book.connections ≡ (seen (opening backend.now)).connections) }
    ensures loads { IfOk result
        (λ servers. servers.book.pins ≡ replicate (length backend.now.servers) 0) }
{
    let servers = backend.servers();
    let settings = settings_of(alloc, servers)?;
    let farm = Farm::new(alloc, &settings, backend.all_backups())?;
    let book = Book::new(alloc, servers.len())?;
    Ok(Opening { farm, book })
}

fn settings_of(alloc: Global, servers: &[BackendServer]) -> Result<Vec<ServerSettings>, AllocError>
    ensures { IfOk result (λ settings. settings.items ≡ map (λ s. s.settings) servers.now) }
{
    servers.iter().map(|server| server.settings).collect(alloc)
}
