ghost use Rattle.std.specs.Prelude.{◌≡◌, IfOk, true, map, All};
ghost use Rattle.lb_types.specs.Names.{is_name};
ghost use Rattle.lb_desk_backend.specs.Configured.{configured_server, server_parts};

use lb_config_values::ServerConfig;
use lb_desk_model::BackendServer;
use std::alloc::{AllocError, Global};

/// The servers in their order, each with its name and settings.
pub(crate) fn servers_of(
    alloc: Global,
    configured: &[ServerConfig],
) -> Result<Vec<BackendServer>, AllocError>
    ensures same { IfOk result (λ servers. map server_parts servers.items ≡ map configured_server configured.now) }
    ensures named { IfOk result (λ servers. All (λ server. is_name server.name ≡ true) servers.items) }
{
    let mut servers = Vec::with_capacity(alloc, configured.len())?;
    for server in configured {
        servers.push(server_of(server))?;
    }
    Ok(servers)
}

fn server_of(configured: &ServerConfig) -> BackendServer
    ensures same { server_parts result ≡ configured_server configured.now }
    ensures named { is_name result.name ≡ true }
{
    let name = configured.name();
    // This call gives the proof that its bytes are a name.
    name.as_bytes();
    BackendServer {
        name,
        settings: configured.settings(),
    }
}
