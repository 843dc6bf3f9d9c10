//! How the relay gets a connection to a server, and gives it back.
//!
//! Promised: a `Dialer` gives a wire at each dial that succeeds. Of that wire no more was used than that it took a beginning of the
//! bytes that it was dialled with. The dialer counts the dials that failed, and takes each wire back. Its records say which endpoint
//! was dialled under which limits, and how each wire stood when it was given back. So a caller can say in its contract which server
//! was dialled, what that got, and that no connection was kept. `ScriptedDialer` is one over memory for tests. Start at `Dialer`,
//! whose words are in `specs/Dials.antt`.
#![tactic(auto)]

mod dialer;
mod endpoint;
mod scripted;

pub use dialer::Dialer;
pub use endpoint::{Endpoint, Limits};
pub use scripted::{DialScript, ScriptedDial, ScriptedDialer};
