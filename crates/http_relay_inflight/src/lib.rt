//! The requests of one worker that are in flight: many at a time, each of which waits as a value and holds no thread.
//!
//! Promised: `admit` begins a request, and `turn` takes one that waits a step on. Whatever the order of these calls, all that was done at
//! the worker's ports, by its clock and at its dialer is what was done for the requests, turn by turn. All that was done for a request
//! that is over is one service, as `serve_one` of `http_relay_serve` promises it. Start at `InFlight`, `admit` and `turn`, whose words
//! are in `specs/Turns.antt`.
#![tactic(auto)]

mod admitting;
mod in_flight;
mod law;
mod progress;
mod turning;

pub use admitting::admit;
pub use in_flight::InFlight;
pub use law::one_by_one;
pub use progress::Progress;
pub use turning::turn;
