use crate::wires::{Given, gives};
use http_relay_socket::FrontedWire;
use http_relay_wire::{Script, ScriptedWire, WireFault, write_all};

/// What was read before, what the wrapped wire sends, how reading had failed, and what reads of four bytes give.
type Front = (
    &'static [u8],
    &'static [u8],
    Option<WireFault>,
    &'static [Given],
);

const TIMEOUT: WireFault = WireFault::Timeout;

const FRONTS: &[Front] = &[
    (b"", b"ab", None, &[Ok((2, b'a')), Ok((0, 0)), Ok((0, 0))]),
    (
        b"abcdef",
        b"g",
        None,
        &[Ok((4, b'a')), Ok((2, b'e')), Ok((1, b'g')), Ok((0, 0))],
    ),
    (b"ab", b"", None, &[Ok((2, b'a')), Ok((0, 0))]),
    (
        b"ab",
        b"cd",
        Some(TIMEOUT),
        &[Ok((2, b'a')), Err(TIMEOUT), Err(TIMEOUT)],
    ),
    (
        b"",
        b"cd",
        Some(WireFault::Broken),
        &[Err(WireFault::Broken)],
    ),
];

// The bytes that were read before come first, and alone. After them each read fails, or the wire's own bytes come.
#[test]
fn what_was_read_before_comes_first(rt: HostRuntime) {
    for (front, behind, failed, expected) in FRONTS {
        let wire = ScriptedWire::new(rt.alloc(), behind, Script::SMOOTH);
        let mut wire = FrontedWire::new(wire, front, *failed);
        assert!(rt; gives(&mut wire, expected), "{front:?}, {behind:?}");
    }
}

// What is written goes to the wire behind, in the pieces that it takes.
#[test]
fn what_is_written_goes_through(rt: HostRuntime) {
    let script = Script {
        most_written: 2,
        ..Script::SMOOTH
    };
    let inner = ScriptedWire::new(rt.alloc(), b"", script);
    let mut wire = FrontedWire::new(inner, b"ab", None);
    let answer = write_all(&mut wire, b"hello");
    assert!(rt; answer == Ok(()) && wire.wire().written() == b"hello".as_slice());
}
