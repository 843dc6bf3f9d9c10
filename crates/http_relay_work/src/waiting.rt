//! How a worker waits for its next connection. Meanwhile it looks at those that it has served.
use crate::{Leavers, Post};
use crossbeam_channel::{Receiver, RecvTimeoutError};
use http_relay_head::HEAD_ROOM;
use http_relay_lobby::{Arrival, WaitingLine};
use std::io::{Read, Write};
use std::net::OpenStream;
use std::sync::Wait;
use std::thread;
use std::time::{Clock, Duration};

/// How many milliseconds pass between two looks at all that were served and didn't leave yet.
const TICK_MILLIS: u64 = 20;

/// For how many milliseconds a worker on call is at the line without a client before it rests.
const STAY_MILLIS: u64 = 1000;

/// The next connection to serve, or none if no more can come and all that were served are gone.
///
/// A client that has reset its connection meanwhile waits for no answer, so its connection is closed, and no server is asked. To see that
/// costs a system call. A client that has only ended its own direction is served.
pub(crate) fn next_arrival<R, S>(
    rt: &R,
    line: &WaitingLine<S>,
    post: Post<'_>,
    leavers: &mut Leavers<S>,
    room: &mut [u8; HEAD_ROOM],
) -> Option<Arrival<S>>
where
    R: Clock + Wait,
    S: Read + Write + OpenStream + Drop,
{
    leavers.look_at_older(rt, room);
    for _ in rt.forever() {
        let has_come = match post.calls {
            None => next_of(rt, line.words(), leavers, room),
            Some(calls) => next_on_call(rt, line, post, calls, leavers, room),
        };
        if !has_come {
            break;
        }
        let Some(arrival) = line.take(rt) else {
            break;
        };
        if !is_reset(&arrival.stream) && !post.is_over() {
            return Some(arrival);
        }
    }
    see_off(rt, leavers, room);
    None
}

/// Whether the client has reset its connection: the system then keeps an error for it. Bytes that came before aren't read.
fn is_reset<S: OpenStream>(stream: &S) -> bool {
    matches!(stream.take_error(), Ok(Some(_)))
}

/// Waits for the next word over the channel. Says whether it came: otherwise nothing more can come.
fn next_of<R, S>(
    rt: &R,
    from: &Receiver<()>,
    leavers: &mut Leavers<S>,
    room: &mut [u8; HEAD_ROOM],
) -> bool
where
    R: Clock + Wait,
    S: Read + Write + OpenStream + Drop,
{
    for _ in rt.forever() {
        if leavers.is_empty() {
            return from.recv(rt).is_ok();
        }
        match from.recv_timeout(rt, Duration::from_millis(TICK_MILLIS)) {
            Ok(()) => return true,
            Err(RecvTimeoutError::Timeout) => leavers.look(rt, usize::MAX, room),
            Err(RecvTimeoutError::Disconnected) => break,
        }
    }
    false
}

/// The same for a worker on call. It rests first if it is one too many, or if nothing came for a while.
fn next_on_call<R, S>(
    rt: &R,
    line: &WaitingLine<S>,
    post: Post<'_>,
    calls: &Receiver<()>,
    leavers: &mut Leavers<S>,
    room: &mut [u8; HEAD_ROOM],
) -> bool
where
    R: Clock + Wait,
    S: Read + Write + OpenStream + Drop,
{
    let mut rests = post.is_surplus();
    for _ in rt.forever() {
        if rests && !rest(rt, post, calls, leavers, room) {
            break;
        }
        let wait = if leavers.is_empty() {
            STAY_MILLIS
        } else {
            TICK_MILLIS
        };
        rests = match line.words().recv_timeout(rt, Duration::from_millis(wait)) {
            Ok(()) => return true,
            Err(RecvTimeoutError::Timeout) => leavers.is_empty(),
            Err(RecvTimeoutError::Disconnected) => break,
        };
        leavers.look(rt, usize::MAX, room);
    }
    false
}

/// Rests until the worker is called. Says whether it was: otherwise no more calls can come.
fn rest<R, S>(
    rt: &R,
    post: Post<'_>,
    calls: &Receiver<()>,
    leavers: &mut Leavers<S>,
    room: &mut [u8; HEAD_ROOM],
) -> bool
where
    R: Clock + Wait,
    S: Read + Write + OpenStream + Drop,
{
    post.lie_down();
    let is_called = next_of(rt, calls, leavers, room);
    if !is_called {
        post.rise();
    }
    is_called
}

/// Looks at those that were served until all are gone.
fn see_off<R, S>(rt: &R, leavers: &mut Leavers<S>, room: &mut [u8; HEAD_ROOM])
where
    R: Clock + Wait,
    S: Read + Write + OpenStream + Drop,
{
    for _ in rt.forever() {
        if leavers.is_empty() {
            break;
        }
        thread::sleep(rt, Duration::from_millis(TICK_MILLIS));
        leavers.look(rt, usize::MAX, room);
    }
}
