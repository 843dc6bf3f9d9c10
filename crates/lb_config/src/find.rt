ghost use Rattle.std.specs.Prelude.{◌≡◌, position};
ghost use Rattle.std.specs.Str.{bytes_eq};
ghost use Rattle.lb_config.specs.Finds.{find_backend, find_server, number_of, server_at, server_place};

use crate::{BackendConfig, Config};
use lb_config_values::ServerConfig;
use lb_types::{MAX_SERVERS, Name, ServerId};
use thiserror::Error;

/// Why a name was not found.
#[derive(Clone, Copy, Debug, PartialEq, Eq, Error)]
pub enum FindFault {
    /// There is no backend of the name.
    #[error("there is no such backend")]
    NoBackend,
    /// The backend has no server of the name.
    #[error("there is no such server")]
    NoSuchServer,
}

impl FindFault {
    /// The number of the fault in answers to operators.
    pub fn number(self) -> u16
        ensures { result ≡ number_of self }
    {
        match self {
            FindFault::NoBackend => 103,
            FindFault::NoSuchServer => 10,
        }
    }
}

impl Config {
    /// The place of the backend of this name, and its server. An unknown backend is reported before an unknown server.
    /// Allocates nothing.
    pub fn find(&self, backend: &Name, server: &Name) -> Result<(usize, ServerId), FindFault>
        ensures { result ≡ find_server self.now.backends backend.now server.now }
    {
        let place = self.find_backend(backend)?;
        match server_at(&self.backends, place, server) {
            Some(server) => Ok((place, server)),
            None => Err(FindFault::NoSuchServer),
        }
    }

    /// The place of the backend of this name. Allocates nothing.
    pub fn find_backend(&self, backend: &Name) -> Result<usize, FindFault>
        ensures { result ≡ find_backend self.now.backends backend.now }
    {
        match backend_place(&self.backends, backend) {
            Some(place) => Ok(place),
            None => Err(FindFault::NoBackend),
        }
    }
}

fn backend_place(backends: &[BackendConfig], name: &Name) -> Option<usize>
    ensures { result ≡ position (λ backend. bytes_eq backend.name name.now) backends.now }
{
    backends.iter().position(|backend| backend.has_name(name))
}

/// The server of the name in the backend at the place.
fn server_at(backends: &[BackendConfig], place: usize, name: &Name) -> Option<ServerId>
    ensures { result ≡ server_at backends.now place name.now }
{
    server_place(backends.get(place)?.servers(), name)
}

/// The server of the name. The configuration has at most 128.
fn server_place(servers: &[ServerConfig], name: &Name) -> Option<ServerId>
    ensures { result ≡ server_place servers.now name.now }
{
    match position_of(servers, name) {
        Some(place) if place < MAX_SERVERS => Some(ServerId::new(place as u8)),
        _ => None,
    }
}

fn position_of(servers: &[ServerConfig], name: &Name) -> Option<usize>
    ensures { result ≡ position (λ server. bytes_eq server.name name.now) servers.now }
{
    servers
        .iter()
        .position(|server| server.name().as_bytes() == name.as_bytes())
}
