use crate::lobby::{LISTENER, Lobby, Next, Rules};
use crate::{Lane, MAX_WAITING};
use http_relay_head::HEAD_ROOM;
use mio::unix::SourceFd;
use mio::{Events, Interest, Poll, Token};
use std::alloc::Global;
use std::io::{Read, Write};
use std::net::{Net, OpenListener, OpenStream};
use std::os::fd::AsRawFd;
use std::sync::Wait;
use std::sync::atomic::{AtomicBool, Ordering};
use std::time::{Clock, Duration, Instant};
use std::{io, thread};

/// How many milliseconds pass at most before the flag is looked at.
const TICK_MILLIS: u64 = 100;

/// How many milliseconds nothing is accepted where too many files are open or too many connections wait.
const REST_MILLIS: u64 = 10;

/// How many connections keep workers busy while the lobby rests.
const MANY_WAITING: usize = 16;

/// For how many microseconds it rests for each of these. No balancer serves one in less, so no worker is out of work before.
const REST_MICROS_EACH: u64 = 8;

/// How many reports of the system are taken at once.
const MOST_EVENTS: usize = 1024;

/// What the system is asked about, and its reports.
#[derive(Drop)]
struct Watch {
    poll: Poll,
    events: Events,
    start: Instant,
    next: Next,
}

/// Accepts connections for a frontend until `stop` is set or no worker is left. Each goes to the workers once they may judge its
/// head: it is whole or can't become one, its client ended or was silent for too long, or reading failed.
///
/// What a client sends with its connection is read at once, so most connections are handed on as they come. One whose head came with
/// it costs this thread two system calls, the accept and a read. Others wait in the lobby, where they cost no worker and hold no
/// other up. It holds up to `rules.most_guests`; if one more comes, the one silent for longest leaves. A client may be silent for
/// `rules.silence`, which each byte begins again. One that was silent for longer goes to the worker as a read that timed out. While
/// the lane is full nothing is accepted, and heads that become whole are kept.
///
/// So many descriptors stay free that dials and checks find one, as `rules.files` says. If a client's connection would take one
/// of these, the listener with the most guests answers the one silent for longest as one that timed out, and closes it at once. If there
/// is none at all, nothing more is accepted until a connection ends.
///
/// The listener's connections have to be set not to block, since a read that waits would hold up all others. They keep the limits on
/// reads and writes that they came with.
///
/// At a stop, seen within 100 ms, the listener is closed first. Guests keep their limit, and none stays for longer than one from the stop
/// on, whatever it sends; those of a frontend without one are closed without an answer. Once `cut` is set, all that are left are closed
/// so. Then the lane is let go, so that workers end after the last connection. The error is the system's or out of memory, where gathering can't begin.
pub fn gather_until_stopped<R, L>(
    rt: &R,
    alloc: Global,
    listener: L,
    rules: Rules,
    stop: &AtomicBool,
    cut: &AtomicBool,
    to: Lane<L::Stream>,
) -> io::Result<()>
where
    R: Net + Wait + Clock,
    L: OpenListener + AsRawFd + Drop,
    L::Stream: Read + Write + OpenStream + AsRawFd,
{
    let mut watch = Watch::new(rt, alloc)?;
    let mut lobby = Lobby::new(alloc, rules, to)?;
    let mut room = [0; HEAD_ROOM];
    listener.set_nonblocking(true)?;
    watch.add(&listener)?;
    for _ in rt.forever() {
        if stop.load(Ordering::SeqCst) || lobby.line.has_ended() {
            break;
        }
        let now = watch.hear_guests(rt, true, &mut lobby, &mut room);
        watch.accept(rt, &listener, &mut lobby, &mut room, now);
    }
    drop(listener);
    lobby.begin_end(rt, &mut room, millis(rt, watch.start));
    for _ in rt.forever() {
        if lobby.is_empty() || lobby.line.has_ended() || cut.load(Ordering::SeqCst) {
            break;
        }
        watch.hear_guests(rt, false, &mut lobby, &mut room);
    }
    Ok(())
}

impl Watch {
    fn new<R: Net + Clock>(rt: &R, alloc: Global) -> io::Result<Self> {
        Ok(Watch {
            poll: Poll::new(rt)?,
            events: Events::with_capacity(alloc, MOST_EVENTS)?,
            start: Instant::now(rt)?,
            next: Next::More,
        })
    }

    fn add<L: AsRawFd>(&self, listener: &L) -> io::Result<()> {
        let descriptor = listener.as_raw_fd();
        self.poll.registry().register(
            &mut SourceFd(&descriptor),
            Token(LISTENER),
            Interest::READABLE,
        )
    }

    /// Waits at most 100 ms for guests, and for the listener where it still `accepts`. Guests that may go are handed on. Gives the
    /// moment.
    fn hear_guests<R, S>(
        &mut self,
        rt: &R,
        accepts: bool,
        lobby: &mut Lobby<S>,
        room: &mut [u8; HEAD_ROOM],
    ) -> Option<u64>
    where
        R: Wait + Clock,
        S: Read + Write + OpenStream + AsRawFd + Drop,
    {
        lobby.line.flush(rt);
        let rested = rest_while_many_wait(rt, lobby.line.waiting());
        lobby.settle(rt, self.poll.registry(), room, rested);
        let most = self.most_wait(lobby.line.is_clear(), accepts);
        let wait = Duration::from_millis(lobby.time_left(millis(rt, self.start), most));
        if self.poll.poll(&mut self.events, Some(wait)).is_err() {
            rest(rt);
        }
        let now = millis(rt, self.start);
        self.hear_all(rt, lobby, room, now);
        lobby.dismiss_silent(rt, self.poll.registry(), now);
        lobby.help_others(self.poll.registry());
        now
    }

    /// How many milliseconds it may wait, whatever guests do.
    fn most_wait(&self, is_clear: bool, accepts: bool) -> u64 {
        if !is_clear {
            REST_MILLIS
        } else if !accepts {
            TICK_MILLIS
        } else {
            match self.next {
                Next::Idle => TICK_MILLIS,
                Next::More | Next::Rest => 0,
            }
        }
    }

    /// Reads what came from guests, and notes whether somebody waits to be accepted.
    fn hear_all<R, S>(
        &mut self,
        rt: &R,
        lobby: &mut Lobby<S>,
        room: &mut [u8; HEAD_ROOM],
        now: Option<u64>,
    )
    where
        R: Wait,
        S: Read + Write + OpenStream + AsRawFd + Drop,
    {
        for event in self.events.iter() {
            let Token(number) = event.token();
            if number == LISTENER {
                self.next = Next::More;
            } else {
                lobby.hear(rt, self.poll.registry(), number, room, now);
            }
        }
    }

    /// Accepts those that wait, if somebody may.
    fn accept<R, L>(
        &mut self,
        rt: &R,
        listener: &L,
        lobby: &mut Lobby<L::Stream>,
        room: &mut [u8; HEAD_ROOM],
        now: Option<u64>,
    )
    where
        R: Wait + Clock,
        L: OpenListener,
        L::Stream: Read + Write + OpenStream + AsRawFd,
    {
        if self.next == Next::Idle {
            return;
        }
        self.next = lobby.accept_some(rt, self.poll.registry(), listener, room, now);
        if self.next == Next::Rest {
            rest(rt);
        }
    }
}

fn rest<R: Clock>(rt: &R) {
    thread::sleep(rt, Duration::from_millis(REST_MILLIS));
}

/// Rests where so many connections wait in the line that workers have enough to do. What comes meanwhile would have to wait after
/// these anyway. A rest gathers it, so that it costs fewer system calls and takes the workers' processors less often. Returns whether
/// it rested.
fn rest_while_many_wait<R: Clock>(rt: &R, waiting: usize) -> bool {
    let rests = waiting >= MANY_WAITING;
    if rests {
        let each = waiting.min(MAX_WAITING) as u64;
        thread::sleep(rt, Duration::from_micros(each * REST_MICROS_EACH));
    }
    rests
}

/// The moment, in milliseconds from the start, if the clock can be read.
fn millis<R: Clock>(rt: &R, start: Instant) -> Option<u64> {
    match start.elapsed(rt) {
        Ok(passed) => u64::try_from(passed.as_millis()).ok(),
        Err(_) => None,
    }
}
