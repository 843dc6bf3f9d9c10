ghost use Rattle.std.specs.Prelude.{◌≡◌, map, IfOk};
ghost use Rattle.std.specs.Option.{option_map};
ghost use Rattle.check_workers_targets.specs.Targets.{target_at, target_view, targets_of};

use check_workers_system::ProbeTarget;
use lb_config::BackendConfig;
use lb_config_values::ServerConfig;
use std::alloc::{AllocError, Global};

/// How each of the backend's servers is probed, in their order: at its address, by its request, and within `timeout check`, or else
/// within `inter`. There is no target for one that isn't checked. The only error is out of memory.
pub fn targets_of(
    alloc: Global,
    backend: &BackendConfig,
) -> Result<Vec<Option<ProbeTarget<'_>>>, AllocError>
    ensures { IfOk result (λ targets. map (option_map target_view) targets.items ≡ targets_of backend.now) }
{
    let servers = backend.servers();
    let mut targets = Vec::with_capacity(alloc, servers.len())?;
    for server in servers {
        targets.push(target_at(backend, server))?;
    }
    Ok(targets)
}

fn target_at<'a>(backend: &BackendConfig, server: &'a ServerConfig) -> Option<ProbeTarget<'a>>
    ensures { option_map target_view result ≡ target_at backend.now.timeouts server.now }
{
    server.settings().check?;
    let endpoint = server.endpoint();
    Some(ProbeTarget {
        address: endpoint.address,
        port: endpoint.port,
        rule: server.check_rule(),
        limit: backend.probe_limit(server).unwrap_or(u32::MAX),
    })
}
