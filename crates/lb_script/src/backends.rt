ghost use Rattle.std.specs.Prelude.{◌≡◌, ◌<◌, IfSome, length, count_by, position};
ghost use Rattle.lb_script.specs.Backends.{has_servers, only_place};

use lb_config::{BackendConfig, Config};

/// The place of the backend that scripts are for: the only one that has servers. None if no backend, or more than one, has servers.
/// Allocates nothing.
pub fn only_backend(config: &Config) -> Option<usize>
    ensures exact { result ≡ only_place config.now.backends }
    ensures within { IfSome result (λ place. place < length config.now.backends) }
{
    let backends = config.backends();
    if count_with_servers(backends) != 1 {
        return None;
    }
    first_with_servers(backends)
}

fn count_with_servers(backends: &[BackendConfig]) -> usize
    ensures { result ≡ count_by has_servers backends.now }
{
    let mut count = 0;
    for backend in backends {
        if has_servers(backend) {
            count += 1;
        }
    }
    count
}

fn first_with_servers(backends: &[BackendConfig]) -> Option<usize>
    ensures exact { result ≡ position has_servers backends.now }
    ensures within { IfSome result (λ place. place < length backends.now) }
{
    backends.iter().position(|backend| has_servers(backend))
}

fn has_servers(backend: &BackendConfig) -> bool
    ensures { result ≡ has_servers backend.now }
{
    !backend.servers().is_empty()
}
