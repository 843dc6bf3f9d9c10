//! What a configuration says of requests, for the relay: here the relay meets the configuration, and nowhere else.
//!
//! Promised: a `ConfigRoutes` is a `Routing` that says of each head what `specs/RequestsOf.antt` defines. This is the backend that
//! takes it, the key of its pin, and the servers and the cost of the rules that apply; also whether servers get the client's address,
//! and how each is reached under which limits. Start at `ConfigRoutes`.
#![tactic(auto)]

mod config_routes;
mod lessons;
mod requests;
mod targets;

pub use config_routes::ConfigRoutes;
