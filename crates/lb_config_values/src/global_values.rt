ghost use Rattle.std.specs.Prelude.{◌≡◌, ◌≤◌, unwrap_or};
ghost use Rattle.std.specs.Option.{option_copied};
ghost use Rattle.lb_config_values.specs.Values.{no_globals, globals_behind, with_global};

use lb_config_lines::{Setting, SocketAddress};
use lb_config_sections::NumberedSetting;
use std::marker::Model;

/// The single values that lines of sections `global` have said so far. `None` is what isn't said.
#[derive(Drop)]
pub struct GlobalValues<'a> {
    relays: Option<u8>,
    tries: Option<u16>,
    journal: Option<u32>,
    socket: Option<&'a SocketAddress>,
}

impl<'a> Model for GlobalValues<'a> {
    ghost use Rattle.std.specs.Option.{option_copied};
    ghost use Rattle.lb_config_values.specs.GlobalsView.{GlobalsView};

    ghost Value = { GlobalsView };

    ghost view = { λ values. record {
      relays = values.relays;
      tries = values.tries;
      journal = values.journal;
      socket = option_copied values.socket;
    } };
}

impl<'a> GlobalValues<'a> {
    /// Nothing is said.
    pub fn none() -> Self
        ensures { result ≡ no_globals }
    {
        GlobalValues {
            relays: None,
            tries: None,
            journal: None,
            socket: None,
        }
    }

    /// These values, with what the settings say after them: if a value is repeated, the last one counts.
    pub fn behind(self, settings: &'a [NumberedSetting]) -> Self
        ensures { result ≡ globals_behind self.entry settings.now }
    {
        let mut values = self;
        for numbered in settings {
            values = values.with(&numbered.setting);
        }
        values
    }

    fn with(self, setting: &'a Setting) -> Self
        ensures { result ≡ with_global self.entry setting.now }
    {
        let mut values = self;
        match setting {
            Setting::Relays(number) => values.relays = Some(*number),
            Setting::Tries(number) => values.tries = Some(*number),
            Setting::Journal(number) => values.journal = Some(*number),
            Setting::StatsSocket(socket) => values.socket = Some(&socket.address),
            _ => {}
        }
        values
    }

    /// How many relay workers there are: 8 where `tune.relays` isn't said.
    pub fn relays(&self) -> u8
        ensures { result ≡ unwrap_or self.now.relays 8 }
    {
        self.relays.unwrap_or(8)
    }

    /// How often an evacuation is tried: 8 times where `tune.tries` isn't said.
    pub fn tries(&self) -> u16
        ensures { result ≡ unwrap_or self.now.tries 8 }
    {
        self.tries.unwrap_or(8)
    }

    /// How many entries a journal keeps: 100000 where `tune.journal` isn't said.
    pub fn journal(&self) -> u32
        ensures { result ≡ unwrap_or self.now.journal 100000 }
    {
        self.journal.unwrap_or(100000)
    }

    /// Where the command socket listens, if `stats socket` is said.
    pub fn socket(&self) -> Option<&'a SocketAddress>
        ensures { option_copied result ≡ self.now.socket }
    {
        self.socket
    }
}
