ghost use Rattle.std.specs.Prelude.{◌≡◌};
ghost use Rattle.lb_routes.specs.RequestsOf.{endpoint_of, target_at, target_of};

use http_relay_dial::{Endpoint, Limits};
use http_relay_talk::Way;
use lb_config::BackendConfig;
use lb_config_arguments::Endpoint as ConfiguredEndpoint;
use lb_config_values::ServerConfig;
use lb_types::ServerId;

/// How the server of this number of the backend at this place is reached, if there is one.
pub(crate) fn target_at(backends: &[BackendConfig], place: usize, number: ServerId) -> Option<Way>
    ensures { result ≡ target_at backends.now place number }
{
    let backend = backends.get(place)?;
    let server = backend.servers().get(number.index())?;
    Some(target_of(backend, number, server))
}

fn target_of(backend: &BackendConfig, number: ServerId, server: &ServerConfig) -> Way
    ensures { result ≡ target_of backend.now number server.now }
{
    Way {
        server: number,
        endpoint: endpoint_of(server.endpoint()),
        limits: Limits {
            connect: backend.connect_limit(),
            transfer: backend.server_limit(),
        },
        queue: backend.queue_limit(),
    }
}

fn endpoint_of(configured: ConfiguredEndpoint) -> Endpoint
    ensures { result ≡ endpoint_of configured }
{
    Endpoint {
        address: configured.address,
        port: configured.port,
    }
}
