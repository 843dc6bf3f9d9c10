use lb_desk_ports::Gate;
use std::net::{Net, TcpListener, TcpStream};
use std::random::RandomSource;
use std::sync::Wait;
use std::thread::Threads;
use std::time::Clock;

/// What the balancer's threads take of the system. Whatever has all of this is one.
pub trait Host: Threads
    + Wait
    + Sync
    + Clock
    + Eprint
    + RandomSource
    + Net<Listener = TcpListener, Stream = TcpStream> {}

impl<
    R: Threads
        + Wait
        + Sync
        + Clock
        + Eprint
        + RandomSource
        + Net<Listener = TcpListener, Stream = TcpStream>,
> Host for R {}

/// A gate that all threads pass, each by a copy of it.
pub trait SharedGate<R>: Gate<R> + Copy + Drop + Send + Sync {}

impl<R, G: Gate<R> + Copy + Drop + Send + Sync> SharedGate<R> for G {}
