//! What all threads of the balancer share: its configuration and desks, the flags by which it ends, and where it reports.
//!
//! Promised: a thread that takes seats by `seats` gets one at the desk of each backend, in the backends' order, and by `seat_at` one at
//! the desk of the backend at the place that it names; each desk opened as its backend is configured. Desks are whatever has the two contracts of
//! `Seating`, so that the threads' crates are proved without the desks that run. Start at `Floor`. Private to `lb_run` and the crates of
//! its threads.
#![tactic(auto)]

mod floor;
mod host;
mod reports;
mod seating;
mod taking;

pub use floor::Floor;
pub use host::{Host, SharedGate};
pub use reports::Reports;
pub use seating::{Desks, Seating};
pub use taking::{backend_at, leave_all, seat_at, seats};
