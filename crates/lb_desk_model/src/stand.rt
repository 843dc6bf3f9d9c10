use lb_types::ServerId;

/// One of the places that a server has in a round: it has as many as its weight, with the turns 1, 2, and so on.
#[derive(Clone, Copy, Debug, PartialEq, Eq, Hash)]
pub struct Stand {
    pub server: ServerId,
    /// 1 to the server's weight.
    pub turn: u16,
}
