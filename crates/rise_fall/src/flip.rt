/// What one more result did to a server's health.
#[derive(Clone, Copy, Debug, PartialEq, Eq, Hash)]
pub enum Flip {
    /// The server counts as it did before.
    Stays,
    /// The server was down, and is up.
    WentUp,
    /// The server was up, and is down.
    WentDown,
}
