//! What holds of the sections of every valid configuration, so that what stands above need not look again.
//!
//! Promised: `checked_sections_are_valid` says what holds of each text that `lb_config_sections::read_checked` takes. The backends are
//! at most 64 with distinct names, and in each section the servers at most 128 with distinct names. Every backend, server, ACL and
//! table that a line names is declared, and each number is in its range. The call does nothing: its contract is a law. Start at
//! `specs/Valid.antt`. Private to `lb_config` and `lb_config_whole`.
#![tactic(auto)]

mod laws;

pub use laws::checked_sections_are_valid;
