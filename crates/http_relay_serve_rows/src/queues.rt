use http_relay_queue::{Waited, open_in_queue};
use lb_desk_ports::{
    Asked, Filed, Pinning, Port, PortScript, ScriptedClock, ScriptedOpening, ScriptedPort, Shut,
};
use lb_types::ServerId;

const FULL: ScriptedOpening = ScriptedOpening::Full;

// The limit, the openings, how the wait ends, and the moments that the clock gave.
type Row = (
    Option<u32>,
    &'static [ScriptedOpening],
    &'static str,
    &'static [u64],
);

const ROWS: &[Row] = &[
    (Some(120), &[FULL; 9], "over", &[0, 50, 100, 150]),
    (Some(100), &[FULL; 9], "over", &[0, 50, 100]),
    (Some(0), &[FULL; 9], "over", &[0]),
    (Some(120), &[FULL; 2], "opened", &[0, 50]),
    (None, &[FULL; 5], "opened", &[0, 50, 100, 150, 200]),
    (Some(120), &[], "opened", &[]),
    (
        Some(120),
        &[FULL, ScriptedOpening::NotServing],
        "not serving",
        &[0],
    ),
];

// The clock moves by the pauses alone. The server is asked at once, and then 50 ms after each Full, until the wait is over.
#[test]
fn a_full_server_is_asked_every_50_milliseconds(rt: HostRuntime) {
    for (limit, openings, end, told) in ROWS {
        let script = PortScript {
            asked: Asked::NoServer,
            set: Pinning::NoTable,
            openings,
            shut: Shut::Closed,
            filed: Filed::NotChecked,
            refusing: None,
        };
        let mut port = ScriptedPort::new(rt.alloc(), &script);
        let mut clock = ScriptedClock::new(rt.alloc(), 0);
        let waited = open_in_queue(&rt, &mut port, &mut clock, ServerId::new(3), *limit);
        let ended = match waited {
            Ok(Waited::Opened(slot)) => {
                let _shut = port.shut(&rt, slot);
                "opened"
            }
            Ok(Waited::NotServing) => "not serving",
            Ok(Waited::Over) => "over",
            Err(_) => "refused",
        };
        assert!(rt; ended == *end && clock.told() == Some(*told), "{limit:?}");
    }
}
