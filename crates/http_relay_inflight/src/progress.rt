use http_relay_serve::{Client, Outcome};

/// What came of a call for a request.
#[derive(Debug, Drop)]
pub enum Progress<C> {
    /// The request waits, under this key.
    Waits(usize),
    /// The request is over, and its client's connection is given back.
    Over(Client<C>, Outcome),
}
