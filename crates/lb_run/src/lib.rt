//! The balancer from its start to its end: its desks and addresses, and the threads of `lb_run_threads` and `lb_run_operators` in one
//! scope.
//!
//! `run_config` binds all addresses first, then runs everything in one scope of threads. It returns once the command `stop` came over
//! the command socket, or a thread had not enough memory to begin. At the end all threads have handed in their passes, and each desk
//! is closed.
//!
//! Promised: where `run_config` answers `Ok`, there are for each backend of the configuration passes and a closed desk, which opened as that
//! backend. It was closed as `lb_desk_shared` promises, so that the receipts of the passes share out one history of the backend, and a line
//! for it went out. Its journal had the size that is configured. `run_text` answers true only if that holds of the text's configuration. The
//! words are in `specs/Runs.antt` and `specs/Jobs.antt`. No clause says which threads run, when they end, and what sockets do; that is
//! tested. Start at `run_config`. `run_config_keeping` and `run_text_keeping` are the same with pins that outlive the process
//! (`lb_run_pins`).
#![tactic(auto)]

mod closing;
mod fault;
mod job;
mod running;
mod seating;
mod streams;

pub use fault::RunFault;
pub use job::{run_text, run_text_keeping};
pub use lb_run_floor::{Host, SharedGate};
pub use lb_run_pins::{Kept, PinsPlace, TextFiles};
pub use running::{run_config, run_config_keeping, run_config_past};
