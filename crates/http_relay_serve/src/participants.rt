use std::net::Ipv4Addr;

/// What one of the relay's workers has for all its requests.
#[derive(Debug, Drop)]
pub struct Worker<K, G, D> {
    pub clock: K,
    pub gate: G,
    pub dialer: D,
}

/// A client's connection, and the address that it comes from.
#[derive(Debug, Drop)]
pub struct Client<C> {
    pub wire: C,
    pub source: Ipv4Addr,
}
