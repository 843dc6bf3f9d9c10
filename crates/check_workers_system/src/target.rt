use check_workers_rule::CheckRule;
use std::net::Ipv4Addr;

/// How a server is probed.
#[derive(Clone, Copy, Debug)]
pub struct ProbeTarget<'a> {
    pub address: Ipv4Addr,
    pub port: u16,
    pub rule: &'a CheckRule,
    /// The milliseconds that a probe may take as a whole. At 0 it fails.
    pub limit: u32,
}
