//! What engines and threads know of a backend, of time, and of the places where a test can hold them.
//!
//! Promised: a `Port` (for requests and checks) and a `Mover` (for planners) state which events each call made and what was
//! replied, as entries of the backend's journal, and count the calls that were refused. A `Clock` states its moments and
//! pauses as far as these are recorded. So a function that is generic over them can say in its contract what it asked for, in
//! which order, and what came back. `ScriptedPort`, `ScriptedMover`, `ScriptedClock` and `OpenGate` are theirs for tests.
//! Start at `Port`, whose words are in `specs/Ports.antt`.
#![tactic(auto)]

mod clock;
mod gate;
mod log;
mod mover;
mod port;
mod refused;
mod replies;
mod scripted_clock;
mod scripted_mover;
mod scripted_port;

pub use clock::Clock;
pub use gate::{Gate, OpenGate, Point};
pub use mover::Mover;
pub use port::Port;
pub use refused::Refused;
pub use replies::{Asked, Filed, Installing, Opening, Pinning, Shut};
pub use scripted_clock::ScriptedClock;
pub use scripted_mover::{MoverScript, ScriptedMover};
pub use scripted_port::{PortScript, ScriptedOpening, ScriptedPort, ScriptedSlot};
