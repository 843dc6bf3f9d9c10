use http_relay_head::{HEAD_ROOM, HeadFault, read_head};
use http_relay_lobby::Search;
use http_relay_wire::{Script, ScriptedWire, WireFault};
use std::net::Ipv4Addr;
use std::test::Fail;

// Bytes that make a difference to a line.
const LETTERS: [u8; 7] = *b"a: \t\r\n\x01";

// All words of five of these letters: 7 to the power of 5.
const WORDS: usize = 16_807;

const BEGINNINGS: &[&[u8]] = &[
    b"",
    b"\r\n",
    b"GET / HTTP/1.1",
    b"GET / HTTP/1.1\r\n",
    b"GET / HTTP/1.1\r\na: b",
    b"GET / HTTP/1.1\r\na: b\r\n",
];

// The word of this number: its digits to the base of 7.
fn word(number: usize) -> [u8; 5] {
    let mut word = [0; 5];
    let mut left = number;
    for letter in word.iter_mut() {
        *letter = LETTERS[left % 7];
        left /= 7;
    }
    word
}

// Whether a client that sends these bytes and waits is waited for by no worker, and its head is handed on as soon as it is one.
fn agree(rt: &HostRuntime, bytes: &[u8], room: &mut [u8; HEAD_ROOM]) -> bool {
    let script = Script {
        failing_read: Some((1, WireFault::Timeout)),
        ..Script::SMOOTH
    };
    let mut wire = ScriptedWire::new(rt.alloc(), bytes, script);
    let is_found = Search::Before.behind(bytes) == Search::Found;
    match read_head(rt.alloc(), &mut wire, room, Ipv4Addr::LOCALHOST) {
        Ok(_) => is_found,
        Err(HeadFault::Wire(_)) => !is_found,
        Err(_) => true,
    }
}

// Where a search finds a head, the worker's own reading never waits for more. Where that reading finds one, so does a search.
#[test]
fn a_head_is_found_where_a_worker_has_it(rt: HostRuntime) -> Result<(), Fail> {
    let mut room = [0; HEAD_ROOM];
    for beginning in BEGINNINGS {
        for number in 0..WORDS {
            let mut bytes = Vec::new(rt.alloc());
            bytes.extend_from_slice(beginning)?;
            bytes.extend_from_slice(&word(number))?;
            assert!(rt; agree(&rt, &bytes, &mut room), "{bytes:?}");
        }
    }
    Ok(())
}
