ghost use Rattle.std.specs.Prelude.{◌≡◌, position};
ghost use Rattle.std.specs.Str.{bytes_eq};
ghost use Rattle.lb_config.specs.Finds.{server_place};

use lb_config_values::ServerConfig;
use lb_types::{MAX_SERVERS, ServerId};

/// The server of this name.
pub(crate) fn find_server(servers: &[ServerConfig], word: &[u8]) -> Option<ServerId>
    ensures { result ≡ server_place servers.now word.now }
{
    match position_of(servers, word) {
        Some(place) if place < MAX_SERVERS => Some(ServerId::new(place as u8)),
        _ => None,
    }
}

fn position_of(servers: &[ServerConfig], word: &[u8]) -> Option<usize>
    ensures { result ≡ position (λ server. bytes_eq server.name word.now) servers.now }
{
    servers
        .iter()
        .position(|server| server.name().as_bytes() == word)
}
