//! The running desk of one backend that many threads use: each call of theirs has a receipt, and all receipts are in one
//! history.
//!
//! A `SharedDesk` is a desk under a lock. Each caller enters once, which is never refused, and has a `Pass`, which goes with each of
//! its calls and keeps their receipts. At the end `SharedDesk::close` takes all passes back.
//!
//! Promised: a call that is answered adds a receipt for its event and the reply to the caller's pass; a call that is refused adds
//! none. The event is the next step of a history that has all receipts of the pass, and a copy of the pins or of the journal is of
//! the end of one: that of the journal has as many of the newest entries as the journal keeps. `SharedDesk::close` promises `Closes`:
//! the journal is the end of a history of the backend from its opening on. The receipts of all passes share out that history, each at
//! its own number, and at its end no connection is open. Start at `SharedDesk`; its words are in `specs/Calls.antt`,
//! `specs/Desks.antt` and `specs/Closing.antt`. Private to the `lb_desk` crates, programs and tests aside.
#![tactic(auto)]

mod closing;
mod journal_copy;
mod naming;
mod receipt;
mod replies;
mod rests;
mod shared;
mod slot;
mod tied;

pub use closing::{CloseFault, Closing, StillOut};
pub use journal_copy::JournalCopy;
pub use naming::Naming;
pub use receipt::{Receipt, Told};
pub use shared::SharedDesk;
pub use slot::Slot;
pub use tied::TiedDesk;
