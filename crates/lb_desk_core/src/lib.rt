//! The core of a running desk: one backend's servers, its table of pins, and where its balance stands.
//!
//! Promised: it opens as the backend's opening. Each event that it takes is a step, with the reply that is given, of every state that
//! it shows; it then shows what follows, the version counted. It takes all events of the machine: requests, pins that are set and
//! cleared, and those that go as they weren't used for long; connections, checks and commands; the sheet for a planner, and its plan. When out of memory it changes
//! nothing. What it shows is always what some history of a lawful backend leads to. It keeps no journal.
//! Private to the `lb_desk` crates. Start at `Core`, and with what it shows at `specs/Seen.antt` of `lb_desk_model`.
#![tactic(auto)]

mod backend_core;
mod counters;
mod events;
mod expiring;
mod installing;
mod loads;
mod parts;
mod serving;
mod setting;
mod sheets;

pub use backend_core::Core;
