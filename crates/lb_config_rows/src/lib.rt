//! Configurations read from texts: what their sections, their `defaults` and the manual's defaults make of them, up to the backends that
//! the machine opens with.
//!
//! Tests alone, of `lb_config`, of `lb_desk_backend`, of `lb_desk`, which lets such a backend run, and of `pin_file_return`, by which pins of a
//! file come back to one. What a text's faults and warnings
//! are is tested by `tests/check`; what clients, operators and servers see of a text, by `tests/balance`.
#![tactic(auto)]

#[cfg(test)]
mod backends;
#[cfg(test)]
mod config_texts;
#[cfg(test)]
mod pins_back;
#[cfg(test)]
mod running;
