use crate::farms::{checked, plain};
use lb_types::{ServerId, ServerSet};
use server_state::{AdminState, Farm, ServerSettings};
use std::alloc::Global;
use std::process::Abort;

/// The set of the servers whose bits are set, of the first eight.
fn set_of(bits: u8) -> ServerSet {
    let mut set = ServerSet::empty();
    let mut rest = bits;
    for i in 0..8u8 {
        if rest % 2 == 1 {
            set = set.with(ServerId::new(i));
        }
        rest /= 2;
    }
    set
}

// a plain, b and c backups, a in maintenance: b alone, or both under `allbackups`. With weight 0 on b: c in both cases.
#[test]
fn the_first_backup_with_a_weight_is_usable_or_all_of_them(rt: HostRuntime) {
    for (all_backups, backups) in [(false, 0b010), (true, 0b110)] {
        let mut farm = Farm::new(
            rt.alloc(),
            &[plain(false), plain(true), plain(true)],
            all_backups,
        )
        .expect(&rt, "memory");
        let at_first = farm.usable();
        farm.set_admin(ServerId::new(0), AdminState::Maint)
            .expect(&rt, "memory");
        let in_maintenance = farm.usable();
        farm.set_weight(ServerId::new(1), 0).expect(&rt, "memory");
        let told = (at_first, in_maintenance, farm.usable());
        let wanted = (set_of(0b001), set_of(backups), set_of(0b100));
        assert_eq!(rt; told, wanted, "{all_backups}");
    }
}

/// What checks say of a server.
#[derive(Clone, Copy, Debug, PartialEq, Eq)]
enum Checks {
    /// It isn't checked.
    Off,
    /// Its first check failed, which brings it down.
    Failed,
    /// Its first check succeeded, so that it is up still.
    Passed,
}

/// A server, and what checks say of it.
#[derive(Clone, Copy, Debug)]
struct Case {
    settings: ServerSettings,
    checks: Checks,
}

/// Whether the server may get new pins: it is ready, has a weight, and is unchecked or up.
fn may_get_pins(case: &Case) -> bool {
    case.settings.admin == AdminState::Ready
        && case.settings.weight > 0
        && case.checks != Checks::Failed
}

/// The usable servers, by the definition: those that aren't backups, else the first backup, or all.
fn usable_plainly(cases: &[Case], all_backups: bool) -> ServerSet {
    let mut main = ServerSet::empty();
    let mut all = ServerSet::empty();
    let mut first = ServerSet::empty();
    for i in 0..4u8 {
        // From the last server to the first.
        let at = 3 - i;
        let Some(case) = cases.get(usize::from(at)) else {
            continue;
        };
        let id = ServerId::new(at);
        if may_get_pins(case) && case.settings.backup {
            first = ServerSet::empty().with(id);
            all = all.with(id);
        } else if may_get_pins(case) {
            main = main.with(id);
        }
    }
    match (main.is_empty(), all_backups) {
        (false, _) => main,
        (true, true) => all,
        (true, false) => first,
    }
}

/// One of 36 servers, in all that matters to which are usable.
fn case_of(kind: u32) -> Case {
    let checks = match kind / 6 % 3 {
        0 => Checks::Off,
        1 => Checks::Failed,
        _ => Checks::Passed,
    };
    let mut settings = if checks == Checks::Off {
        plain(false)
    } else {
        checked(1, 1)
    };
    settings.admin = match kind % 3 {
        0 => AdminState::Ready,
        1 => AdminState::Drain,
        _ => AdminState::Maint,
    };
    settings.weight = if kind / 3 % 2 == 0 { 1 } else { 0 };
    settings.backup = kind / 18 % 2 == 0;
    Case { settings, checks }
}

/// Checks the checked servers once, and compares.
fn compare(rt: &impl Abort, alloc: Global, cases: &[Case; 4], count: usize, all_backups: bool) {
    let settings = [
        cases[0].settings,
        cases[1].settings,
        cases[2].settings,
        cases[3].settings,
    ];
    let count = count.min(4);
    let mut farm = Farm::new(alloc, &settings[..count], all_backups).expect(rt, "memory");
    for (i, case) in cases.iter().enumerate() {
        let _ = farm.check(ServerId::new(i as u8), case.checks == Checks::Passed);
    }
    let cases = &cases[..count];
    let told = (farm.usable(), farm.len(), farm.is_empty());
    let wanted = (usable_plainly(cases, all_backups), count, count == 0);
    assert_eq!(rt; told, wanted, "{cases:?}");
}

#[test]
fn every_farm_of_up_to_four_servers_is_usable_by_the_definition(rt: HostRuntime) {
    for (count, farms) in [(0usize, 1u32), (1, 36), (2, 1296), (3, 46656), (4, 1679616)] {
        for number in 0..farms {
            let mut cases = [case_of(0); 4];
            let mut rest = number;
            for case in cases.iter_mut() {
                *case = case_of(rest % 36);
                rest /= 36;
            }
            compare(&rt, rt.alloc(), &cases, count, false);
            compare(&rt, rt.alloc(), &cases, count, true);
        }
    }
}
