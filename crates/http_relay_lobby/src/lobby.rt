use crate::ceiling::Ceiling;
use crate::guest::{Guest, Heard};
use crate::guests::{Guests, Leaver};
use crate::line::Line;
use crate::refusing::{refuse, time_out};
use crate::{Arrival, Lane};
use http_relay_head::HEAD_ROOM;
use http_relay_listen::{OtherFiles, passes};
use http_relay_wire::WireFault;
use mio::unix::SourceFd;
use mio::{Interest, Registry, Token};
use std::alloc::{AllocError, Global};
use std::collections::VecDeque;
use std::io;
use std::io::{ErrorKind, Read, Write};
use std::net::{OpenListener, OpenStream, SocketAddr};
use std::os::fd::AsRawFd;
use std::sync::Wait;

/// The most connections that are accepted in one go, so that guests are heard of meanwhile.
const MOST_ACCEPTED: u32 = 64;

/// How many guests are let go at once where no more files can be opened, or another listener needs some. With the rest after that
/// these are up to 1,600 a second.
const LET_GO: u32 = 16;

/// The most clients of a `bind` that may be connected before their head is whole, idle ones among them. Each takes one of
/// the process's open files and some 300 bytes.
pub const MOST_GUESTS: usize = 16_384;

/// The number under which the system reports the listener. No guest has it.
pub(crate) const LISTENER: usize = usize::MAX;

/// What a lobby is for.
#[derive(Clone, Copy, Debug, PartialEq, Eq)]
pub struct Rules {
    /// The place of the frontend among the configuration's.
    pub frontend: usize,
    /// How many milliseconds a client may be silent, and how many it has from a stop on. Without a number, and at 0, there is no limit.
    pub silence: Option<u32>,
    /// How many connections may be in the lobby; at least one may.
    pub most_guests: usize,
    /// The files for which descriptors are left.
    pub files: OtherFiles,
}

/// How accepting goes on.
#[derive(Clone, Copy, Debug, PartialEq, Eq)]
pub(crate) enum Next {
    /// Once the system reports that somebody waits.
    Idle,
    /// At once, since somebody may wait.
    More,
    /// The same, after a rest.
    Rest,
}

/// Connections of one frontend whose heads aren't whole, and the line to the workers.
#[derive(Drop)]
pub(crate) struct Lobby<S: Drop> {
    alloc: Global,
    rules: Rules,
    guests: Guests<S>,
    /// Those that were accepted just now and whose heads weren't there. No report is asked for of them yet.
    newcomers: VecDeque<Guest<S>>,
    /// One that was accepted though there was no descriptor for it that clients may keep. It waits for one, and no other is accepted.
    at_door: Option<(S, SocketAddr)>,
    ceiling: Ceiling,
    pub(crate) line: Line<S>,
    next_number: usize,
    /// The moment of the stop, if there was one and the clock could be read then.
    stopped: Option<Option<u64>>,
}

impl<S: Read + Write + OpenStream + AsRawFd + Drop> Lobby<S> {
    pub(crate) fn new(alloc: Global, rules: Rules, to: Lane<S>) -> Result<Self, AllocError> {
        let mut newcomers = VecDeque::new(alloc);
        newcomers.reserve(MOST_ACCEPTED as usize)?;
        Ok(Lobby {
            alloc,
            rules,
            guests: Guests::new(alloc, rules.most_guests)?,
            newcomers,
            at_door: None,
            ceiling: Ceiling::new(rules.files),
            line: Line::new(alloc, to),
            next_number: 0,
            stopped: None,
        })
    }

    /// Whether no connection is left here.
    pub(crate) fn is_empty(&self) -> bool {
        self.guests.len() == 0 && self.newcomers.is_empty() && self.line.is_clear()
    }

    /// How many milliseconds it is until a guest has to go, limited to so many.
    pub(crate) fn time_left(&self, now: Option<u64>, most: u64) -> u64 {
        let Some(limit) = self.limit() else {
            return most;
        };
        match self.guests.oldest() {
            Some(heard) => limit.saturating_sub(self.waited(now, heard)).min(most),
            None => most,
        }
    }

    /// For how many milliseconds a guest has used up its limit: since it was last heard of, or since the stop, if that is longer ago.
    fn waited(&self, now: Option<u64>, heard: Option<u64>) -> u64 {
        let silent = silence(now, heard);
        match self.stopped {
            Some(stopped) => silent.max(silence(now, stopped)),
            None => silent,
        }
    }

    /// How long a guest may be silent, in milliseconds.
    fn limit(&self) -> Option<u64> {
        match self.rules.silence {
            Some(millis) if millis > 0 => Some(u64::from(millis)),
            _ => None,
        }
    }

    /// Accepts those that wait, but not all of a crowd in one go.
    pub(crate) fn accept_some<R: Wait, L: OpenListener<Stream = S>>(
        &mut self,
        rt: &R,
        registry: &Registry,
        listener: &L,
        room: &mut [u8; HEAD_ROOM],
        now: Option<u64>,
    ) -> Next {
        for _ in 0..MOST_ACCEPTED {
            if !self.line.is_clear() {
                return Next::More;
            }
            match self.next_client(listener) {
                Ok((stream, address)) => match self.let_through(registry, stream) {
                    Ok(stream) => self.welcome(rt, stream, address, room, now),
                    Err(stream) => {
                        self.at_door = Some((stream, address));
                        return Next::Rest;
                    }
                },
                Err(error) if error.kind() == ErrorKind::WouldBlock => return Next::Idle,
                Err(error) if passes(&error) => {}
                Err(_) => {
                    self.ceiling.measure();
                    self.let_go(rt, registry);
                    return Next::Rest;
                }
            }
        }
        Next::More
    }

    /// The client at the door, or else the next that is accepted.
    fn next_client<L: OpenListener<Stream = S>>(
        &mut self,
        listener: &L,
    ) -> io::Result<(S, SocketAddr)> {
        match self.at_door.take() {
            Some(client) => Ok(client),
            None => listener.accept(),
        }
    }

    /// The connection under a descriptor that a client may keep. If there is none, the listener with the most guests lets the one go that
    /// was silent for longest. If that isn't enough yet, the connection is given back as it is.
    fn let_through(&mut self, registry: &Registry, stream: S) -> Result<S, S> {
        if self.ceiling.allows(&stream) {
            return Ok(stream);
        }
        self.ceiling.measure();
        if !self.line.lane().ask_for_file(self.guests.len()) {
            self.time_out_oldest(registry);
        }
        self.ceiling.lowered(stream)
    }

    /// Lets some guests go if another listener, which has fewer, needs a file. The others learn how many are left.
    pub(crate) fn help_others(&mut self, registry: &Registry) {
        if self.line.lane().is_asked_for_file() {
            for _ in 0..LET_GO {
                self.time_out_oldest(registry);
            }
        }
        self.line.lane().note_guests(self.guests.len());
    }

    /// Answers the guest that was silent for longest as one whose limit ran out, and closes its connection. No worker does so, since the
    /// descriptor is needed now.
    fn time_out_oldest(&mut self, registry: &Registry) {
        let Some(oldest) = self.guests.take_oldest() else {
            return;
        };
        let stream = oldest.arrival.stream;
        let _ = registry.deregister(&mut SourceFd(&stream.as_raw_fd()));
        time_out(stream);
    }

    /// Begins the end, at this moment: no guest stays longer than its limit from here on. The client at the door is let in.
    pub(crate) fn begin_end<R: Wait>(
        &mut self,
        rt: &R,
        room: &mut [u8; HEAD_ROOM],
        now: Option<u64>,
    ) {
        self.stopped = Some(now);
        if let Some((stream, address)) = self.at_door.take() {
            self.welcome(rt, stream, address, room, now);
        }
        self.close_endless();
    }

    /// Reads what the client has sent with its connection, which doesn't block. One whose head isn't whole is a newcomer.
    fn welcome<R: Wait>(
        &mut self,
        rt: &R,
        stream: S,
        address: SocketAddr,
        room: &mut [u8; HEAD_ROOM],
        now: Option<u64>,
    ) {
        let Some(arrival) = Arrival::of(self.alloc, stream, address, self.rules.frontend) else {
            return;
        };
        match Guest::new(arrival, now).read_once(room) {
            Heard::Stays(guest) => self.keep(guest),
            Heard::Leaves(arrival) => self.line.put(rt, arrival),
            Heard::Lost(stream) => refuse(stream),
        }
    }

    // There is room for as many as are accepted in one go.
    fn keep(&mut self, newcomer: Guest<S>) {
        if let Err(failed) = self.newcomers.push_back(newcomer) {
            refuse(failed.value.arrival.stream);
        }
    }

    /// Makes the newcomers guests. Where some time has `passed` since they came, each is read once more before. Most heads are there
    /// then, and to have a connection watched, and then no longer, costs two system calls.
    pub(crate) fn settle<R: Wait>(
        &mut self,
        rt: &R,
        registry: &Registry,
        room: &mut [u8; HEAD_ROOM],
        passed: bool,
    ) {
        for _ in 0..self.newcomers.len() {
            let Some(newcomer) = self.newcomers.pop_front() else {
                break;
            };
            let heard = if passed {
                newcomer.read_once(room)
            } else {
                Heard::Stays(newcomer)
            };
            match heard {
                Heard::Stays(guest) => self.invite(rt, registry, guest),
                Heard::Leaves(arrival) => self.line.put(rt, arrival),
                Heard::Lost(stream) => refuse(stream),
            }
        }
    }

    /// Makes the connection a guest. One that the system doesn't watch is closed.
    fn invite<R: Wait>(&mut self, rt: &R, registry: &Registry, guest: Guest<S>) {
        let number = self.next_number;
        self.next_number = if number < LISTENER - 1 { number + 1 } else { 0 };
        let descriptor = guest.arrival.stream.as_raw_fd();
        let watched = registry.register(
            &mut SourceFd(&descriptor),
            Token(number),
            Interest::READABLE,
        );
        if watched.is_ok() {
            self.let_in(rt, registry, number, guest);
        }
    }

    /// Lets a guest in that was just heard of. Where there are too many the oldest one goes to a worker, as one that was silent for
    /// too long.
    fn let_in<R: Wait>(&mut self, rt: &R, registry: &Registry, number: usize, guest: Guest<S>) {
        match self.guests.let_in(number, guest) {
            None => {}
            Some(Leaver::Oldest(oldest)) => self.dismiss(rt, registry, oldest),
            Some(Leaver::Newest(guest)) => refuse(guest.arrival.stream),
        }
    }

    /// Reads what came from the guest of this number.
    pub(crate) fn hear<R: Wait>(
        &mut self,
        rt: &R,
        registry: &Registry,
        number: usize,
        room: &mut [u8; HEAD_ROOM],
        now: Option<u64>,
    ) {
        let Some(guest) = self.guests.take(number) else {
            return;
        };
        let descriptor = guest.arrival.stream.as_raw_fd();
        match guest.read_all(room) {
            Heard::Stays(mut guest) => {
                guest.heard = now;
                self.let_in(rt, registry, number, guest);
            }
            Heard::Leaves(arrival) => {
                let _ = registry.deregister(&mut SourceFd(&descriptor));
                self.line.put(rt, arrival);
            }
            Heard::Lost(stream) => refuse(stream),
        }
    }

    /// Hands on the guests whose limit is over.
    pub(crate) fn dismiss_silent<R: Wait>(
        &mut self,
        rt: &R,
        registry: &Registry,
        now: Option<u64>,
    ) {
        let Some(limit) = self.limit() else {
            return;
        };
        for _ in 0..self.guests.len() {
            match self.guests.oldest() {
                Some(heard) if self.waited(now, heard) >= limit => self.dismiss_oldest(
                    rt, registry,
                ),
                _ => break,
            }
        }
    }

    /// Lets some guests go, the oldest first, so that there are files again.
    fn let_go<R: Wait>(&mut self, rt: &R, registry: &Registry) {
        for _ in 0..LET_GO {
            self.dismiss_oldest(rt, registry);
        }
    }

    fn dismiss_oldest<R: Wait>(&mut self, rt: &R, registry: &Registry) {
        if let Some(oldest) = self.guests.take_oldest() {
            self.dismiss(rt, registry, oldest);
        }
    }

    /// Hands on a guest as one that was silent for too long.
    fn dismiss<R: Wait>(&mut self, rt: &R, registry: &Registry, guest: Guest<S>) {
        let descriptor = guest.arrival.stream.as_raw_fd();
        let _ = registry.deregister(&mut SourceFd(&descriptor));
        self.line.put(rt, guest.failed(WireFault::Timeout));
    }

    /// Closes the guests and newcomers that nothing else would end, as those of a frontend without a limit.
    fn close_endless(&mut self) {
        if self.limit().is_none() {
            self.newcomers.clear();
            for _ in 0..self.guests.len() {
                let _ = self.guests.take_oldest();
            }
        }
    }
}

/// For how many milliseconds a guest was silent. Where the clock can't be read that is for ever.
fn silence(now: Option<u64>, heard: Option<u64>) -> u64 {
    match (now, heard) {
        (Some(now), Some(heard)) => now.saturating_sub(heard),
        _ => u64::MAX,
    }
}
