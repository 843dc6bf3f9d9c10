ghost use Rattle.std.specs.Prelude.{◌≤◌};

use lb_types::ServerId;
use rise_fall::Flip::{Stays, WentDown, WentUp};
use server_state::{
    AdminState, Change, ChangeFault, CheckSettings, Checked, Farm, ServerSettings, Setting,
};
use std::process::Abort;

/// A server of weight 1, without checks.
pub(crate) fn plain(backup: bool) -> ServerSettings {
    ServerSettings {
        admin: AdminState::Ready,
        weight: 1,
        max_connections: 0,
        max_pins: 5,
        backup,
        check: None,
    }
}

/// A server whose checks count so, two successes and three failures by default.
pub(crate) fn checked(rise: u16, fall: u16) -> ServerSettings
    requires rise_in_range { (1 ≤ rise) × (rise ≤ 1000) }
    requires fall_in_range { (1 ≤ fall) × (fall ≤ 1000) }
{
    let mut settings = plain(false);
    settings.check = Some(CheckSettings { rise, fall });
    settings
}

use ChangeFault::{NoSuchServer, NotChecked, OutOfRange};

const NO_SERVER: Result<(), (ChangeFault, u16)> = Err((NoSuchServer, 10));

const TOO_LARGE: Result<(), (ChangeFault, u16)> = Err((OutOfRange, 11));

const NOT_CHECKED: Result<(), (ChangeFault, u16)> = Err((NotChecked, 12));

// Server 0 isn't checked, server 1 is, server 2 doesn't exist.
const CHANGES: &[(u8, Setting, Result<(), (ChangeFault, u16)>)] = &[
    (0, Setting::Admin(AdminState::Drain), Ok(())),
    (2, Setting::Admin(AdminState::Drain), NO_SERVER),
    (0, Setting::Health(true), NOT_CHECKED),
    (1, Setting::Health(true), Ok(())),
    (2, Setting::Health(true), NO_SERVER),
    (0, Setting::Weight(256), Ok(())),
    (0, Setting::Weight(257), TOO_LARGE),
    (2, Setting::Weight(257), NO_SERVER),
    (0, Setting::MaxConnections(4294967295), Ok(())),
    (0, Setting::MaxConnections(4294967296), TOO_LARGE),
    (0, Setting::MaxPins(16777216), Ok(())),
    (0, Setting::MaxPins(16777217), TOO_LARGE),
    (0, Setting::Weight(18446744073709551615), TOO_LARGE),
];

#[test]
fn each_change_is_refused_for_the_first_cause(rt: HostRuntime) {
    let mut farm = Farm::new(rt.alloc(), &[plain(false), checked(2, 3)], false).expect(
        &rt, "memory",
    );
    make_changes(&rt, &mut farm);
    let [plain_one, missing] = [ServerId::new(0), ServerId::new(2)];
    let told = (
        farm.weight(plain_one),
        farm.max_connections(plain_one),
        farm.capacity(plain_one),
        farm.weight(missing),
        farm.len(),
    );
    assert_eq!(rt; told, (256, 4294967295, 16777216, 0, 2));
    let told = (farm.check(plain_one, true), farm.check(missing, true));
    assert_eq!(rt; told, (Err(NotChecked), Err(NoSuchServer)));
}

fn make_changes(rt: &impl Abort, farm: &mut Farm) {
    for (server, setting, wanted) in CHANGES {
        let answer = farm.apply(Change {
            server: ServerId::new(*server % 128),
            setting: *setting,
        });
        let told = answer.map_err(|fault| (fault, fault.number()));
        assert_eq!(rt; told, *wanted, "{setting:?}");
    }
}

/// What happens to a server.
#[derive(Clone, Copy, Debug)]
enum Step {
    /// It is set so, by the call for that.
    Set(Setting),
    /// A check's result comes, and changes this.
    Check(bool, Checked),
}

use Step::{Check, Set};

// Each step, and whether the server serves and is usable after it.
const SCRIPTS: &[&[(Step, bool, bool)]] = &[
    &[
        (Set(Setting::Weight(7)), true, true),
        (Set(Setting::MaxConnections(8)), true, true),
        (Set(Setting::MaxPins(9)), true, true),
        (Set(Setting::Health(false)), false, false),
        (Set(Setting::Health(true)), true, true),
        (Set(Setting::Admin(AdminState::Drain)), true, false),
    ],
    // In maintenance results are ignored, and its end warms the server anew, whatever was set, so that one failure brings it down.
    &[
        (Set(Setting::Admin(AdminState::Maint)), false, false),
        (Set(Setting::Health(false)), false, false),
        (Check(true, Checked::Ignored), false, false),
        (Set(Setting::Admin(AdminState::Ready)), true, true),
        (Check(false, Checked::Took(WentDown)), false, false),
    ],
    // Checks go on while it drains, and ready again is no end of maintenance: the health is kept.
    &[
        (Set(Setting::Admin(AdminState::Drain)), true, false),
        (Check(false, Checked::Took(WentDown)), false, false),
        (Check(true, Checked::Took(Stays)), false, false),
        (Check(true, Checked::Took(WentUp)), true, false),
        (Set(Setting::Admin(AdminState::Ready)), true, true),
        (Check(false, Checked::Took(Stays)), true, true),
    ],
];

/// Sets the server so, by the call for that.
fn set(farm: &mut Farm, server: ServerId, setting: Setting) -> Result<(), ChangeFault> {
    match setting {
        Setting::Admin(state) => farm.set_admin(server, state),
        Setting::Health(up) => farm.set_health(server, up),
        Setting::Weight(weight) => farm.set_weight(server, weight),
        Setting::MaxConnections(most) => farm.set_maxconn(server, most),
        Setting::MaxPins(most) => farm.set_maxpins(server, most),
    }
}

/// Takes the steps at the first server, and compares after each.
fn go_through(rt: &impl Abort, farm: &mut Farm, steps: &[(Step, bool, bool)]) {
    let a = ServerId::new(0);
    for (step, serves, usable) in steps {
        let is_right = match step {
            Set(setting) => set(farm, a, *setting).is_ok(),
            Check(ok, wanted) => farm.check(a, *ok) == Ok(*wanted),
        };
        let told = (is_right, farm.serving(a), farm.usable().has(a));
        assert_eq!(rt; told, (true, *serves, *usable), "{step:?} in {steps:?}");
    }
}

#[test]
fn servers_through_settings_checks_and_maintenance(rt: HostRuntime) {
    for steps in SCRIPTS {
        let mut farm = Farm::new(rt.alloc(), &[checked(2, 3)], false).expect(&rt, "memory");
        go_through(&rt, &mut farm, *steps);
    }
}

#[test]
fn a_server_has_what_it_is_set_to(rt: HostRuntime) {
    let a = ServerId::new(0);
    let mut farm = Farm::new(rt.alloc(), &[checked(2, 3)], false).expect(&rt, "memory");
    farm.set_weight(a, 7).expect(&rt, "a change");
    farm.set_maxconn(a, 8).expect(&rt, "a change");
    farm.set_maxpins(a, 9).expect(&rt, "a change");
    let told = (farm.weight(a), farm.max_connections(a), farm.capacity(a));
    assert_eq!(rt; told, (7, 8, 9));
}
