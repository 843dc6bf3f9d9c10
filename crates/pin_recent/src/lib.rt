//! A hash map whose pairs are in order of last use.
//!
//! `Recent` is a list of pairs, the one that wasn't used for longest first, and the number of uses so far. A key is found by its
//! hash, a touch puts its pair last and never allocates, and the oldest pair is popped without memory too. A pass changes each
//! value once, and hashes nothing.
//!
//! Promised: each call's result and the list after it, exactly, whatever the hasher. A call that is refused memory changes nothing.
//! Start at `Recent`; the words are in `specs/Recent.antt`. No clause sees where a pair is stored.
#![tactic(auto)]

mod change;
mod copy;
mod iter;
mod log;
mod recent;
mod rests;
mod room;
mod stamped;
mod store;

pub use change::Change;
pub use copy::RecentCopy;
pub use iter::Iter;
pub use recent::Recent;
pub use rests::{NoRest, Rests};
pub use room::CopyRoom;
