ghost use Rattle.std.specs.Prelude.{◌≡◌, [], IfOk, OnOk};
ghost use Rattle.std.specs.List.{list_any};
ghost use Rattle.std.specs.Str.{bytes_eq};
ghost use Rattle.lb_config.specs.Kept.{IsServers, kept_behind, may_follow, with_kept};

use lb_config_values::ServerConfig;
use lb_types::{MAX_SERVERS, Name};
use std::alloc::{AllocError, Global};

/// The servers that a backend has: of two servers of one name the first, and the first 128. A text with more is refused before, so
/// none is left out; each backend keeps the fact.
pub(crate) fn kept_servers(
    alloc: Global,
    servers: Vec<ServerConfig>,
) -> Result<Vec<ServerConfig>, AllocError>
    ensures exact { IfOk result (λ kept. kept.items ≡ kept_behind [] servers.items) }
    ensures lawful { IfOk result (λ kept. IsServers kept.items) }
{
    let mut kept = Vec::new(alloc);
    for server in servers {
        keep(&mut kept, server)?;
    }
    Ok(kept)
}

fn keep(kept: &mut Vec<ServerConfig>, server: ServerConfig) -> Result<(), AllocError>
    ensures { OnOk result (kept.new.items ≡ with_kept kept.old.items server) }
{
    if may_follow(kept, &server) {
        kept.push(server)?;
    }
    Ok(())
}

fn may_follow(kept: &[ServerConfig], server: &ServerConfig) -> bool
    ensures { result ≡ may_follow kept.now server.now }
{
    kept.len() < MAX_SERVERS && !is_taken(kept, server.name())
}

/// Whether one of the servers has this name.
fn is_taken(kept: &[ServerConfig], name: Name) -> bool
    ensures { result ≡ list_any (λ other. bytes_eq other.name name) kept.now }
{
    kept.iter()
        .any(|other| other.name().as_bytes() == name.as_bytes())
}
