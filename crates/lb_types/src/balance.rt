/// How a backend chooses among the servers that a request may go to: HAProxy Configuration Manual 2.8, section 4.2, `balance`.
#[derive(Clone, Copy, Debug, PartialEq, Eq, Hash)]
pub enum Balance {
    /// In turn, each server as often as its weight says.
    RoundRobin,
    /// The server with the fewest open connections for its weight.
    LeastConnections,
    /// The first server in the configuration's order with a free connection.
    First,
}
