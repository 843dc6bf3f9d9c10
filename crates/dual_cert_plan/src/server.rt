use lb_types::Name;

/// A server as sheets and plans list it.
#[derive(Clone, Copy, Debug, PartialEq, Eq)]
pub struct Server {
    pub name: Name,
    /// How many pins the server may hold, below 2^32. A server without a capacity is off: no pin may go there.
    pub capacity: Option<u32>,
}

/// A server of a plan, with the price of each of its places.
#[derive(Clone, Copy, Debug, PartialEq, Eq)]
pub struct PricedServer {
    pub server: Server,
    /// Below 2^40, and 0 where the server is off.
    pub price: u64,
}
