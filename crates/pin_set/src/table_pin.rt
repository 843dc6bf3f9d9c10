use crate::Pin;
use lb_types::Moment;

/// A pin as the table keeps it.
#[derive(Clone, Debug, Drop, PartialEq, Eq)]
pub struct TablePin {
    pub pin: Pin,
    /// When a request was last served through it.
    pub last_use: Moment,
}
