//! A body that is sent through two scripted wires.

use http_relay_body::{BodyFault, send_body};
use http_relay_forward::BodyKind;
use http_relay_wire::{Script, ScriptedWire};
use std::alloc::Global;

// What a body gives through these wires, and how many of its bytes were written, if they are its first.
pub(crate) fn send_through(
    alloc: Global,
    kind: BodyKind,
    body: &[u8],
    client: Script,
    server: Script,
) -> (Result<(), BodyFault>, Option<u64>) {
    let mut client = ScriptedWire::new(alloc, body, client);
    let mut server = ScriptedWire::new(alloc, b"", server);
    let answer = send_body(kind, b"", &mut client, &mut server);
    let written = server.written();
    let sent = if body.starts_with(written) {
        Some(written.len() as u64)
    } else {
        None
    };
    (answer, sent)
}
