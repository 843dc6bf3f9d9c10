//! The desks of a configuration's backends: how they are opened, handed to threads, and closed.
//!
//! A program opens one `NewDesk` for each backend. At one call it picks a name for all of them together (`Naming`), and there
//! `named_desks` makes them desks for many threads, numbered by the places of their backends. Threads hand in their passes at a
//! `PassBox`; once all threads have ended, `close_desk` closes a desk with the passes that are its own.
//!
//! Promised: `new_desks` opens each backend of the configuration and nothing else, in their order, each with a journal of the size that is
//! configured. `close_desk` closes a desk as `lb_desk_shared` promises: the receipts of its passes share out one history of its backend. Or
//! it says why it can't, as that crate does.
//! Start at `new_desks`; the words are in `specs/NewDesks.antt` and `specs/Closed.antt`. Private to `lb_run`.
#![tactic(auto)]

mod closing;
mod naming;
mod new_desk;
mod pass_box;

pub use closing::{close_desk, closed_line};
pub use naming::named_desks;
pub use new_desk::{NewDesk, new_desks};
pub use pass_box::PassBox;
