ghost use Rattle.std.specs.Prelude.{◌≤◌};
ghost use Rattle.lb_types.specs.declared.limits.TheConstants.{MAX_PINS, MAX_WEIGHT};
ghost use Rattle.rise_fall.specs.declared.health.TheConstants.{MAX_STREAK};

/// What an operator wants of a server.
#[derive(Clone, Copy, Debug, PartialEq, Eq, Hash)]
pub enum AdminState {
    /// It gets new pins, while it is usable.
    Ready,
    /// It serves the pins that it has, and gets no new ones.
    Drain,
    /// It serves nothing, and its check results are ignored.
    Maint,
}

impl AdminState {
    ghost use Rattle.std.specs.Prelude.{◌≡◌};
    ghost use Rattle.server_state.specs.Server.{is_maint, is_ready};

    /// Whether the server serves nothing.
    pub fn is_maint(self) -> bool
        ensures { result ≡ is_maint self }
    {
        match self {
            AdminState::Maint => true,
            AdminState::Ready | AdminState::Drain => false,
        }
    }

    /// Whether the server may get new pins.
    pub fn is_ready(self) -> bool
        ensures { result ≡ is_ready self }
    {
        match self {
            AdminState::Ready => true,
            AdminState::Drain | AdminState::Maint => false,
        }
    }
}

/// How many checks in a row turn a server: `rise` successes bring it up, `fall` failures bring it down.
#[derive(Clone, Copy, Debug, PartialEq, Eq)]
pub struct CheckSettings {
    /// 1 to 1000.
    pub rise: u16,
    /// 1 to 1000.
    pub fall: u16,
    pub ghost rise_from: { 1 ≤ rise },
    pub ghost rise_to: { rise ≤ MAX_STREAK },
    pub ghost fall_from: { 1 ≤ fall },
    pub ghost fall_to: { fall ≤ MAX_STREAK },
}

/// A server as the configuration defines it.
#[derive(Clone, Copy, Debug, PartialEq, Eq)]
pub struct ServerSettings {
    /// `Maint` for a server that is `disabled`, else `Ready`.
    pub admin: AdminState,
    /// 0 to 256. A server of weight 0 gets no new pins.
    pub weight: u16,
    /// How many connections may be open at once (`maxconn`); 0 is no limit.
    pub max_connections: u32,
    /// How many pins it may hold (`maxpins`), 0 to 16777216.
    pub max_pins: u32,
    /// Whether it stands by for the others.
    pub backup: bool,
    /// How its checks count, or `None` for a server that is never checked and counts as available.
    pub check: Option<CheckSettings>,
    pub ghost weight_in_range: { weight ≤ MAX_WEIGHT },
    pub ghost max_pins_in_range: { max_pins ≤ MAX_PINS },
}
