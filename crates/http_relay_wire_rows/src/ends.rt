use http_relay_socket::{Drained, drain};
use http_relay_wire::{Script, ScriptedWire, WireFault};
use std::test::Fail;

/// How many bytes still come, the read that fails, how the end goes, and how many bytes are left.
type End = (usize, Option<(u64, WireFault)>, Drained, usize);

const BROKEN: WireFault = WireFault::Broken;

// Each read gives at most 1,000 bytes.
const ENDS: &[End] = &[
    (0, None, Drained::Ended, 0),
    (1, None, Drained::Ended, 0),
    (65_535, None, Drained::Ended, 0),
    (65_536, None, Drained::Full, 0),
    (65_537, None, Drained::Full, 1),
    (100_000, None, Drained::Full, 34_464),
    (5_000, Some((2, BROKEN)), Drained::Failed(BROKEN), 3_000),
];

// What still comes is dropped, up to 65,536 bytes; nothing is written.
#[test]
fn what_still_comes_is_dropped_within_bounds(rt: HostRuntime) -> Result<(), Fail> {
    let bytes = Vec::from_elem(rt.alloc(), 7, 100_000)?;
    let mut room = [0; 4096];
    for (count, failing_read, ends, left) in ENDS {
        let script = Script {
            pieces: &[1000],
            failing_read: *failing_read,
            ..Script::SMOOTH
        };
        let sent = bytes.len().min(*count);
        let mut wire = ScriptedWire::new(rt.alloc(), &bytes[..sent], script);
        let drained = drain(&mut wire, &mut room);
        assert!(rt;
            drained == *ends && wire.unread().len() == *left,
            "{count}, {drained:?}"
        );
    }
    Ok(())
}
