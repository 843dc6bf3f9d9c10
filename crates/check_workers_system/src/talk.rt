use crate::ProbeTarget;
use check_workers_probe::Probing;
use http_relay_socket::{Deadline, Patience};
use http_relay_wire::SocketWire;
use mio::net::TcpStream;
use mio::{Interest, Registry, Token};
use std::alloc::{AllocError, Global};
use std::io::ErrorKind;
use std::net::{Net, SocketAddr, SocketAddrV4};
use std::time::{Clock, Duration};
use std::{io, mem};

/// The probes of one server, one after another.
#[derive(Drop)]
pub(crate) struct Talk<'a, R> {
    target: ProbeTarget<'a>,
    probing: Probing<'a>,
    stage: Stage<'a, R>,
}

/// How far a probe is.
#[derive(Drop)]
enum Stage<'a, R> {
    /// None is under way.
    Idle,
    Connecting(TcpStream, Deadline<'a, R>),
    Connected(SocketWire<TcpStream>, Deadline<'a, R>),
    /// It has ended with this answer.
    Ended(bool),
}

impl<'a, R: Net + Clock> Talk<'a, R> {
    /// A server that isn't probed yet. All memory that probes need is taken here; the only error is out of memory.
    pub(crate) fn new(alloc: Global, target: ProbeTarget<'a>) -> Result<Self, AllocError> {
        Ok(Talk {
            target,
            probing: Probing::new(alloc, target.rule)?,
            stage: Stage::Idle,
        })
    }

    /// Begins a probe, of which the system reports under this number. One whose connection can't be begun has failed.
    pub(crate) fn begin(&mut self, rt: &'a R, registry: &Registry, number: usize) {
        self.probing.restart();
        let mut deadline = Deadline::after(rt, self.target.limit);
        let dialled = match deadline.next_wait() {
            Ok(_) => self.dial(rt, registry, number).ok(),
            Err(_) => None,
        };
        self.stage = match dialled {
            Some(stream) => Stage::Connecting(stream, deadline),
            None => Stage::Ended(false),
        };
    }

    fn dial(&self, rt: &R, registry: &Registry, number: usize) -> io::Result<TcpStream> {
        let address = SocketAddrV4::new(self.target.address, self.target.port);
        let mut stream = TcpStream::connect(rt, SocketAddr::V4(address))?;
        let both = Interest::READABLE | Interest::WRITABLE;
        registry.register(&mut stream, Token(number), both)?;
        Ok(stream)
    }

    /// Goes on as far as it can without waiting.
    pub(crate) fn go_on(&mut self) {
        self.stage = match mem::replace(&mut self.stage, Stage::Idle) {
            Stage::Connecting(stream, deadline) => match is_connected(&stream) {
                Ok(true) => self.converse(SocketWire::new(stream), deadline),
                Ok(false) => Stage::Connecting(stream, deadline),
                Err(_) => Stage::Ended(false),
            },
            Stage::Connected(wire, deadline) => self.converse(wire, deadline),
            stage => stage,
        };
    }

    fn converse(&mut self, wire: SocketWire<TcpStream>, deadline: Deadline<'a, R>) -> Stage<'a, R> {
        let mut wire = wire;
        match self.probing.go_on(&mut wire) {
            Some(ok) => Stage::Ended(ok),
            None => Stage::Connected(wire, deadline),
        }
    }

    /// How long the probe may still take, if one is under way. One whose limit has run out has failed.
    pub(crate) fn time_left(&mut self) -> Option<Duration> {
        let left = match &mut self.stage {
            Stage::Connecting(_, deadline) => deadline.next_wait(),
            Stage::Connected(_, deadline) => deadline.next_wait(),
            Stage::Idle | Stage::Ended(_) => return None,
        };
        if left.is_err() {
            self.stage = Stage::Ended(false);
        }
        Some(left.unwrap_or(Duration::ZERO))
    }

    /// The answer of the probe, if it has ended. It is given once.
    pub(crate) fn take_answer(&mut self) -> Option<bool> {
        let Stage::Ended(ok) = self.stage else {
            return None;
        };
        self.stage = Stage::Idle;
        Some(ok)
    }
}

/// Whether a dial has ended well, or not yet. The error is the system's, where it failed.
fn is_connected(stream: &TcpStream) -> io::Result<bool> {
    if let Some(error) = stream.take_error()? {
        return Err(error);
    }
    match stream.peer_addr() {
        Ok(_) => Ok(true),
        Err(error) if error.kind() == ErrorKind::NotConnected => Ok(false),
        Err(error) => Err(error),
    }
}
