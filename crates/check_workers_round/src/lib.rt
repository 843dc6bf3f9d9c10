//! Checks of a backend's servers as their time comes. Probes of several servers are under way at once, of one server one.
//!
//! Promised: `make_round` finds the check that is due first among those whose servers aren't being probed. If it is due, `make_round`
//! begins a probe of that server, and sets when it is due again. Else it says how long nothing is due. Then it files the result of a
//! probe that has ended, if one has, under the very server that was probed. Nothing else is probed or filed, and a result that the
//! backend refuses is dropped. Start at `make_round`, whose words are in `specs/Rounds.antt`.
#![tactic(auto)]

mod check;
mod making;
mod outcome;
mod probes;
mod scripted;

pub use check::Check;
pub use making::make_round;
pub use outcome::{Beginning, CheckMade, Round};
pub use probes::{Probed, Probes};
pub use scripted::{ScriptedProbes, Turn};
