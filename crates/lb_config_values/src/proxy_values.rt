ghost use Rattle.std.specs.Prelude.{◌≡◌, unwrap_or};
ghost use Rattle.lb_types.specs.declared.balance.Balance.TheVariants.{RoundRobin};
ghost use Rattle.lb_config_values.specs.Values.{no_values, values_behind, with_setting};

use crate::Timeouts;
use lb_config_lines::Setting;
use lb_config_sections::NumberedSetting;
use lb_types::{Balance, Name};

/// The single values that lines of a proxy's section, or of `defaults`, have said so far. `None` is what isn't said.
#[derive(Clone, Copy, Debug)]
pub struct ProxyValues {
    /// `balance`.
    pub balance: Option<Balance>,
    /// `default_backend`.
    pub default_backend: Option<Name>,
    /// The times.
    pub timeouts: Timeouts,
    /// `option allbackups`.
    pub all_backups: bool,
    /// `option evacuate`.
    pub evacuate: bool,
    /// `option forwardfor`.
    pub forward_for: bool,
}

impl ProxyValues {
    /// Nothing is said.
    pub fn none() -> Self
        ensures { result ≡ no_values }
    {
        ProxyValues {
            balance: None,
            default_backend: None,
            timeouts: Timeouts::none(),
            all_backups: false,
            evacuate: false,
            forward_for: false,
        }
    }

    /// These values, with what the settings say after them: if a value is repeated, the last one counts.
    pub fn behind(self, settings: &[NumberedSetting]) -> Self
        ensures { result ≡ values_behind self settings.now }
    {
        let mut values = self;
        for numbered in settings {
            values = values.with(&numbered.setting);
        }
        values
    }

    fn with(self, setting: &Setting) -> Self
        ensures { result ≡ with_setting self setting.now }
    {
        let mut values = self;
        match setting {
            Setting::Balance(balance) => values.balance = Some(*balance),
            Setting::DefaultBackend(name) => values.default_backend = Some(*name),
            Setting::Timeout(which, millis) => {
                values.timeouts = self.timeouts.with(*which, *millis);
            }
            Setting::AllBackups => values.all_backups = true,
            Setting::Evacuate => values.evacuate = true,
            Setting::ForwardFor => values.forward_for = true,
            _ => {}
        }
        values
    }

    /// How a server is picked: `roundrobin` where no `balance` is said.
    pub fn picking(&self) -> Balance
        ensures { result ≡ unwrap_or self.now.balance RoundRobin }
    {
        self.balance.unwrap_or(Balance::RoundRobin)
    }
}
