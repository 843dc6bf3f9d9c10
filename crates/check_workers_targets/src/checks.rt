ghost use Rattle.std.specs.Prelude.{◌≡◌, ◌≤◌, ◌<◌, ◌++◌, length, IfOk, OnOk};
ghost use Rattle.std.specs.Option.{option_to_list};
ghost use Rattle.lb_types.specs.declared.limits.TheConstants.{MAX_SERVERS};
ghost use Rattle.check_workers_targets.specs.Targets.{check_at, checks_from, checks_of};

use check_workers_round::Check;
use lb_config::BackendConfig;
use lb_config_values::ServerConfig;
use lb_types::{Moment, ServerId};
use std::alloc::{AllocError, Global};

/// When the backend's servers are checked: those with `check`, in their order, each for the first time at once and then every
/// `inter`. The only error is out of memory.
pub fn checks_of(alloc: Global, backend: &BackendConfig) -> Result<Vec<Check>, AllocError>
    ensures { IfOk result (λ checks. checks.items ≡ checks_of backend.now) }
{
    checks_among(alloc, backend.servers())
}

fn checks_among(alloc: Global, servers: &[ServerConfig]) -> Result<Vec<Check>, AllocError>
    requires { length servers.now ≤ MAX_SERVERS }
    ensures { IfOk result (λ checks. checks.items ≡ checks_from 0 servers.now) }
{
    let mut checks = Vec::new(alloc);
    let mut place = 0;
    while place < servers.len() {
        push_check(&mut checks, place as u8, &servers[place])?;
        place += 1;
    }
    Ok(checks)
}

/// Appends the server's check, if it is checked.
fn push_check(checks: &mut Vec<Check>, place: u8, server: &ServerConfig) -> Result<(), AllocError>
    requires { place < MAX_SERVERS }
    ensures { OnOk result (checks.new.items ≡ checks.old.items ++ option_to_list (check_at place server.now)) }
{
    if let Some(check) = check_at(place, server) {
        checks.push(check)?;
    }
    Ok(())
}

fn check_at(place: u8, server: &ServerConfig) -> Option<Check>
    requires { place < MAX_SERVERS }
    ensures { result ≡ check_at place server.now }
{
    server.settings().check?;
    Some(Check {
        server: ServerId::new(place),
        interval: server.interval(),
        due: Moment::from_millis(0),
    })
}
