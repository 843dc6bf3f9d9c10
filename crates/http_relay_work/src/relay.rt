use http_relay_serve::Worker;
use http_relay_system::{SocketDialer, SystemClock};
use lb_config::Config;
use std::time::Instant;

/// What all workers of the relay share.
#[derive(Clone, Copy, Debug)]
pub struct Relay<'a> {
    pub config: &'a Config,
    /// The moment from which the clocks of all workers count.
    pub start: Instant,
}

/// What a worker has for all its requests: the system's clock, its gate, and a dialer over sockets.
pub type RelayWorker<'a, G> = Worker<SystemClock<'a>, G, SocketDialer<'a>>;
