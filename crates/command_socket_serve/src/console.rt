ghost use Rattle.std.specs.Prelude.{◌≡◌};
ghost use Rattle.command_socket_serve.specs.Consoles.{IsConsole, console_at, console_of, table_of};

use lb_answers::{NamedBackend, NamedTable};
use lb_config::{BackendConfig, Config};
use lb_desk_model::BackendServer;
use lb_types::Moment;
use std::marker::Model;

/// What operators' commands are carried out with, wherever they come from.
#[derive(Debug, Drop)]
pub struct Console<'a, G> {
    config: &'a Config,
    names: &'a [NamedBackend<'a>],
    gate: &'a G,
    moment: Moment,
}

impl<'a, G> Model for Console<'a, G> {
    ghost use Rattle.command_socket_serve.specs.Consoles.{ConsoleView, IsConsole, console_of};

    ghost Value = { ConsoleView };

    ghost view = { λ c. console_of c.config.now c.names.now c.moment };

    ghost invariant = { λ c. IsConsole (console_of c.config.now c.names.now c.moment) };
}

impl<'a, G> Console<'a, G> {
    /// A console for this configuration at moment 0, with a name for each of its backends, in their order. The gate is passed between
    /// planning and each install.
    pub fn new(config: &'a Config, names: &'a [NamedBackend<'a>], gate: &'a G) -> Self
        requires { IsConsole (console_of config.now names.now 0) }
        ensures { result ≡ console_of config.now names.now 0 }
    {
        Console {
            config,
            names,
            gate,
            moment: Moment::from_millis(0),
        }
    }

    /// The same console at this moment, which is that of what commands do to pins.
    pub fn at(&self, moment: Moment) -> Self
        ensures { result ≡ console_at self.now moment }
    {
        Console {
            config: self.config,
            names: self.names,
            gate: self.gate,
            moment,
        }
    }

    /// The moment of what commands do to pins.
    pub fn moment(&self) -> Moment
        ensures { result ≡ self.now.moment }
    {
        self.moment
    }

    /// The configuration.
    pub fn config(&self) -> &'a Config
        ensures { result.now ≡ self.now.config }
    {
        self.config
    }

    /// The backends as answers name them.
    pub fn names(&self) -> &'a [NamedBackend<'a>]
        ensures exact { result.now ≡ self.now.names }
        ensures all { IsConsole self.now }
    {
        self.names
    }

    /// What is passed between planning and each install.
    pub fn gate(&self) -> &'a G {
        self.gate
    }
}

/// A backend of the configuration as answers name it, with these servers.
pub fn named_backend<'a>(backend: &BackendConfig, servers: &'a [BackendServer]) -> NamedBackend<'a>
    ensures name { result.name ≡ backend.now.name }
    ensures servers { result.servers.now ≡ servers.now }
    ensures table { result.table ≡ table_of backend.now }
{
    NamedBackend {
        name: backend.name(),
        servers,
        table: table_of(backend),
    }
}

/// The table of a backend, if it has one.
fn table_of(backend: &BackendConfig) -> Option<NamedTable>
    ensures { result ≡ table_of backend.now }
{
    let table = backend.rules().table()?;
    Some(NamedTable {
        key_type: table.kind(),
        size: table.settings().size,
    })
}
