use check_workers_round::Check;
use check_workers_rule::CheckRule;
use check_workers_system::ProbeTarget;
use check_workers_targets::{checks_of, targets_of};
use lb_config::{Config, read_config};
use std::alloc::Global;
use std::net::Ipv4Addr;
use std::process::Abort;
use std::test::Fail;

const TEXT: &[u8] = b"defaults
  timeout check 300
backend web
  option httpchk GET /h
  server a 10.0.0.1:8001 check inter 500
  server b 10.0.0.2:8002
  server c 10.0.0.3:8003 check
backend api
  timeout check 0
  server a 10.0.0.4:8004 check inter 700
  server b 10.0.0.5:8005 check inter 0
backend plain
  server a 10.0.0.6:8006
";

// The places, and the milliseconds between checks, of the checked servers of each backend.
const CHECKS: &[&[(usize, u32)]] = &[&[(0, 500), (2, 2000)], &[(0, 700), (1, 0)], &[]];

// The last byte of the address, the port, whether a request is sent, and the limit, of each server of each backend.
type Target = Option<(u8, u16, bool, u32)>;

const TARGETS: &[&[Target]] = &[
    &[Some((1, 8001, true, 300)), None, Some((3, 8003, true, 300))],
    &[
        Some((4, 8004, false, 700)),
        Some((5, 8005, false, u32::MAX)),
    ],
    &[None],
];

fn config(rt: &impl Abort, alloc: Global) -> Config {
    match read_config(alloc, TEXT) {
        Ok(config) => config,
        Err(_) => panic!(rt; "a fault"),
    }
}

fn are_checks(checks: &[Check], expected: &[(usize, u32)]) -> bool {
    checks.len() == expected.len()
        && checks.iter().zip(expected).all(|(check, expected)| {
            (check.server.index(), check.interval) == *expected && check.due.as_millis() == 0
        })
}

fn is_target(target: &Option<ProbeTarget<'_>>, expected: &Target) -> bool {
    match (target, expected) {
        (None, None) => true,
        (Some(target), Some((byte, port, sends, limit))) => {
            target.address == Ipv4Addr::new(10, 0, 0, *byte)
                && (target.port, target.limit) == (*port, *limit)
                && is_sending(target.rule) == *sends
        }
        _ => false,
    }
}

fn is_sending(rule: &CheckRule) -> bool {
    rule.request().is_some()
}

// Servers with `check` are checked every `inter`, and probed within `timeout check` or else `inter`; where both are 0 nothing limits
// it.
#[test]
fn checks_are_as_configured(rt: HostRuntime) -> Result<(), Fail> {
    let config = config(&rt, rt.alloc());
    let backends = config.backends();
    assert_eq!(rt; backends.len(), CHECKS.len());
    for (backend, expected) in backends.iter().zip(CHECKS) {
        let checks = checks_of(rt.alloc(), backend)?;
        assert!(rt; are_checks(&checks, expected), "{expected:?}");
    }
    for (backend, expected) in backends.iter().zip(TARGETS) {
        let targets = targets_of(rt.alloc(), backend)?;
        let is_so = targets.len() == expected.len()
            && targets
                .iter()
                .zip(*expected)
                .all(|(target, expected)| is_target(target, expected));
        assert!(rt; is_so, "{expected:?}");
    }
    Ok(())
}
