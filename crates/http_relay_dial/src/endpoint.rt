use std::net::Ipv4Addr;

/// Where a server listens.
#[derive(Clone, Copy, Debug, PartialEq, Eq, Hash)]
pub struct Endpoint {
    pub address: Ipv4Addr,
    pub port: u16,
}

/// How many milliseconds a server may take. Without a number there is no limit.
#[derive(Clone, Copy, Debug, PartialEq, Eq, Hash)]
pub struct Limits {
    /// To take the connection.
    pub connect: Option<u32>,
    /// For each read from it, and for each write to it.
    pub transfer: Option<u32>,
}
