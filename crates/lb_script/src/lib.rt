//! The lines of a replay script, each as what it asks for.
//!
//! Promised: `read_line` gives exactly what `specs/Lines.antt` says that the line asks for, or that the line is of no form.
//! `only_backend` gives the one backend that a script is for, exactly if one backend alone has servers. Keys are those of requests
//! (`laws`). Start at `ScriptLine`.
#![tactic(auto)]

mod asked;
mod asking;
mod backends;
mod commands;
mod keys;
mod keyword;
mod laws;
mod line;
mod requests;
mod script_line;
mod servers;
mod set_pins;
mod words;

pub use backends::only_backend;
pub use laws::keys_are_those_of_requests;
pub use line::read_line;
pub use script_line::ScriptLine;
