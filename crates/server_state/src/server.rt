ghost use Rattle.std.specs.Prelude.{◌≡◌, ◌≤◌, map, IfOk, OnOk, OnErr, Ok, Err, nat_lt, if◌then◌else◌};
ghost use Rattle.std.specs.Result.{result_err};
ghost use Rattle.std.specs.Option.{option_map};
ghost use Rattle.server_state.specs.Server.{health_at_start};
ghost use Rattle.server_state.specs.Changes.{rewarmed, forced_to};

use crate::{AdminState, ChangeFault, CheckSettings, Checked, ServerSettings, Setting};
use lb_types::{MAX_CONNECTIONS, MAX_PINS, MAX_WEIGHT};
use rise_fall::Health;
use std::alloc::{AllocError, Global};
use std::marker::Model;

/// One server, as it stands.
#[derive(Debug, Drop)]
pub(crate) struct Server {
    admin: AdminState,
    weight: u16,
    max_connections: u32,
    max_pins: u32,
    backup: bool,
    health: Option<Health>,
}

impl Model for Server {
    ghost use Rattle.server_state.specs.Server.{ServerView};

    ghost Value = { ServerView };

    ghost view = { λ s. record {
      admin = s.admin;
      weight = s.weight;
      max_connections = s.max_connections;
      max_pins = s.max_pins;
      backup = s.backup;
      health = s.health;
    } };

    ghost use Rattle.std.specs.Prelude.{◌≤◌};
    ghost use Rattle.lb_types.specs.declared.limits.TheConstants.{MAX_PINS, MAX_WEIGHT};

    ghost invariant = { λ s. (s.weight ≤ MAX_WEIGHT) × (s.max_pins ≤ MAX_PINS) };
}

impl Server {
    ghost use Rattle.server_state.specs.Server.{server_at_start, serves, takes_pins};
    ghost use Rattle.server_state.specs.Changes.{fault_at, with_setting};
    ghost use Rattle.server_state.specs.Checks.{TakesResult};

    /// The server at the start.
    pub(crate) fn open(settings: &ServerSettings) -> Self
        ensures { result ≡ server_at_start settings.now }
    {
        Server {
            admin: settings.admin,
            weight: settings.weight,
            max_connections: settings.max_connections,
            max_pins: settings.max_pins,
            backup: settings.backup,
            health: health_at_start(settings.check),
        }
    }

    /// The servers at the start.
    pub(crate) fn open_all(
        alloc: Global,
        settings: &[ServerSettings],
    ) -> Result<Vec<Self>, AllocError>
        ensures { IfOk result (λ servers. servers.items ≡ map server_at_start settings.now) }
    {
        settings.iter().map(|one| Server::open(one)).collect(alloc)
    }

    /// Whether it serves: it isn't in maintenance, and is unchecked or up.
    pub(crate) fn serves(&self) -> bool
        ensures { result ≡ serves self.now }
    {
        !self.admin.is_maint() && self.health.is_none_or(|health| health.is_up())
    }

    /// Whether new pins may go to it, as far as it says itself.
    pub(crate) fn takes_pins(&self) -> bool
        ensures { result ≡ takes_pins self.now }
    {
        self.serves() && self.admin.is_ready() && self.weight > 0
    }

    /// Whether it stands by for the others.
    pub(crate) fn is_backup(&self) -> bool
        ensures { result ≡ self.now.backup }
    {
        self.backup
    }

    /// The weight, 0 to 256.
    pub(crate) fn weight(&self) -> u16
        ensures exact { result ≡ self.now.weight }
        ensures in_range { result ≤ MAX_WEIGHT }
    {
        self.weight
    }

    /// How many connections may be open; 0 is no limit.
    pub(crate) fn max_connections(&self) -> u32
        ensures { result ≡ self.now.max_connections }
    {
        self.max_connections
    }

    /// How many pins it may hold, 0 to 16777216.
    pub(crate) fn max_pins(&self) -> u32
        ensures exact { result ≡ self.now.max_pins }
        ensures in_range { result ≤ MAX_PINS }
    {
        self.max_pins
    }

    /// Sets one setting, or is refused and changes nothing.
    pub(crate) fn set(&mut self, setting: Setting) -> Result<(), ChangeFault>
        ensures fault { result_err result ≡ fault_at self.old setting }
        ensures ok { OnOk result (self.new ≡ with_setting self.old setting) }
        ensures err { OnErr result (self.new ≡ self.old) }
    {
        match setting {
            Setting::Admin(admin) => self.set_admin(admin),
            Setting::Health(_) if self.health.is_none() => return Err(ChangeFault::NotChecked),
            Setting::Health(up) => self.health = forced(self.health, up),
            Setting::Weight(weight) => self.weight = up_to(MAX_WEIGHT, weight)? as u16,
            Setting::MaxConnections(limit) => self.max_connections = up_to(
                MAX_CONNECTIONS,
                limit,
            )? as u32,
            Setting::MaxPins(limit) => self.max_pins = up_to(MAX_PINS, limit)? as u32,
        }
        Ok(())
    }

    /// Sets the admin state. A checked server that leaves maintenance is warmed again.
    fn set_admin(&mut self, admin: AdminState)
        ensures { self.new ≡ with_setting self.old (Setting.Admin admin) }
    {
        if self.admin.is_maint() && !admin.is_maint() {
            self.health = rewarmed(self.health);
        }
        self.admin = admin;
    }

    /// Takes a check's result, unless it is refused or ignored.
    pub(crate) fn check(&mut self, ok: bool) -> Result<Checked, ChangeFault>
        ensures { TakesResult self.old self.new result ok }
    {
        let Some(mut health) = self.health else {
            return Err(ChangeFault::NotChecked);
        };
        if self.admin.is_maint() {
            return Ok(Checked::Ignored);
        }
        let flip = health.take(ok);
        self.health = Some(health);
        Ok(Checked::Took(flip))
    }
}

/// The health of a server at the start.
fn health_at_start(check: Option<CheckSettings>) -> Option<Health>
    ensures { result ≡ option_map health_at_start check }
{
    let check = check?;
    Some(Health::new(check.rise, check.fall))
}

/// The health of a server that leaves maintenance.
fn rewarmed(health: Option<Health>) -> Option<Health>
    ensures { result ≡ option_map rewarmed health }
{
    let mut health = health?;
    health.rewarm();
    Some(health)
}

/// The health of a server that is forced up or down.
fn forced(health: Option<Health>, up: bool) -> Option<Health>
    ensures { result ≡ option_map (forced_to up) health }
{
    let mut health = health?;
    health.force(up);
    Some(health)
}

/// The number, unless it is above the limit.
fn up_to(limit: u64, number: u64) -> Result<u64, ChangeFault>
    ensures { result ≡ (if nat_lt limit number then Err ChangeFault.OutOfRange else Ok number) }
{
    if number > limit {
        return Err(ChangeFault::OutOfRange);
    }
    Ok(number)
}
