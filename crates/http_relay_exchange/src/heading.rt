ghost use Rattle.std.specs.Prelude.{◌≡◌, ◌+◌, ◌≤◌, ◌++◌, [], length, take, drop, IfOk};
ghost use Rattle.http_relay_dial.specs.Dials.{Talk, talk_of};
ghost use Rattle.http_relay_exchange.specs.Exchanges.{Began};
ghost use Rattle.http_relay_exchange.specs.Headings.{SendsHead, SendsBoth};

use crate::{Outgoing, SendFault};
use http_relay_body::{BodyFault, BodyFront};
use http_relay_wire::{Wire, write_all};

/// The bytes of the room that a head and the front of its body go out through together. It is enough for the forwarded form of a head
/// of 16384 bytes, and for that of a shorter one with what came after it in one room of 16384.
const ROOM: usize = 17408;

/// Sends the head, of which so many bytes may have gone out before. In the same writes goes the front of the body that came with the
/// client's head, as much of it as the room has place for. It answers what that front was. Where the server takes all bytes at once
/// that is one write. A front costs a copy of it and of the head, and the room; where there is none the head is written from where it
/// stands.
pub(crate) fn send_head<S: Wire>(
    request: &Outgoing<'_>,
    taken: usize,
    server: &mut S,
) -> Result<BodyFront, SendFault>
    ensures within { IfOk result (λ front. front.len ≤ length request.now.behind) }
    ensures sent { (before : Talk) → Began request.now taken before (talk_of S.written S.reading S.faults server.old)
        → SendsHead request.now before (talk_of S.written S.reading S.faults server.new) result }
{
    let head = request.head();
    let behind = request.behind();
    let most = behind.len().min(ROOM.saturating_sub(head.len()));
    let front = BodyFront::of(request.kind(), &behind[..most]);
    if front.len == 0 {
        send_rest(request, taken, server)?;
        return Ok(front);
    }
    send_both(head, &behind[..front.len], server)?;
    Ok(front)
}

/// Sends what is left of a head of whose opening so many bytes were taken.
fn send_rest<S: Wire>(request: &Outgoing<'_>, taken: usize, server: &mut S) -> Result<(), SendFault>
    ensures { (before : Talk) → Began request.now taken before (talk_of S.written S.reading S.faults server.old)
        → SendsBoth request.now.head [] before (talk_of S.written S.reading S.faults server.new) result }
{
    let head = request.head();
    let taken = taken.min(request.opening().len()).min(head.len());
    match write_all(server, &head[taken..]) {
        Ok(()) => Ok(()),
        Err(fault) => Err(SendFault::Head(fault)),
    }
}

/// Sends a head and the front of its body, in the same writes.
fn send_both<S: Wire>(head: &[u8], front: &[u8], server: &mut S) -> Result<(), SendFault>
    requires { length head.now + length front.now ≤ ROOM }
    ensures { SendsBoth head.now front.now
        (talk_of S.written S.reading S.faults server.old) (talk_of S.written S.reading S.faults server.new) result }
{
    let mut room = [0; ROOM];
    let len = head.len() + front.len();
    join(head, front, &mut room[..len]);
    send_joined(&room[..len], head.len(), server)
}

/// Copies a head into this room, and the front of its body after it.
fn join(head: &[u8], front: &[u8], room: &mut [u8])
    requires { length room.old ≡ length head.now + length front.now }
    ensures { room.new ≡ head.now ++ front.now }
{
    let len = head.len();
    room[..len].copy_from_slice(head);
    room[len..].copy_from_slice(front);
}

/// Sends these bytes: the first, so many, are a head, and the others the front of its body. As long as a write has taken a part of
/// the head alone, the next one has all that is left.
fn send_joined<S: Wire>(bytes: &[u8], head: usize, server: &mut S) -> Result<(), SendFault>
    requires { head ≤ length bytes.now }
    ensures { SendsBoth (take head bytes.now) (drop head bytes.now)
        (talk_of S.written S.reading S.faults server.old) (talk_of S.written S.reading S.faults server.new) result }
{
    let mut sent = 0;
    while sent < head {
        match server.write(&bytes[sent..]) {
            Ok(count) => sent += count,
            Err(fault) => return Err(SendFault::Head(fault)),
        }
    }
    match write_all(server, &bytes[sent..]) {
        Ok(()) => Ok(()),
        Err(fault) => Err(SendFault::Body(BodyFault::Server(fault))),
    }
}
