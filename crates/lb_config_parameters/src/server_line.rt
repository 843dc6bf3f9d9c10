ghost use Rattle.lb_config_arguments.specs.Faults.{Gives};
ghost use Rattle.lb_config_parameters.specs.ServerLines.{server_at, default_server_at};

use crate::ServerOptions;
use crate::options_state::read_options;
use lb_config_arguments::{Endpoint, LineError, Words, read_server_endpoint};
use lb_types::Name;

/// A line `server`.
#[derive(Clone, Copy, Debug)]
pub struct ServerLine {
    /// The server's name.
    pub name: Name,
    /// Where it is reached.
    pub endpoint: Endpoint,
    /// What the line says of it.
    pub options: ServerOptions,
}

/// The words after `server`: a name, an address with its port, and parameters.
#[tactic(auto, unfolding(crate::specs::ServerLines::server_at))]
pub fn read_server(words: &mut Words) -> Result<ServerLine, LineError>
    ensures { Gives (λ server. server) result (server_at words.old) }
{
    let name = words.next_name()?;
    let word = words.next_word()?;
    let endpoint = read_server_endpoint(words, word)?;
    let options = read_options(words, false)?;
    Ok(ServerLine {
        name,
        endpoint,
        options,
    })
}

/// The words after `default-server`: parameters, at least one.
#[tactic(auto, unfolding(crate::specs::ServerLines::default_server_at))]
pub fn read_default_server(words: &mut Words) -> Result<ServerOptions, LineError>
    ensures { Gives (λ options. options) result (default_server_at words.old) }
{
    words.wants_word()?;
    read_options(words, true)
}
