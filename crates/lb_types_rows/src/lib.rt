//! Worked rows of the small values: texts and numbers, writers that fail, names, sets of servers, kinds of pins, scores, what rules ask
//! of a request, and what answers teach of cookies. And worked rows and brute force of a backend's servers: their health, which of them are usable, their connections and pins,
//! and their checks.
//!
//! Tests alone, of `lb_types_text`, `lb_types_counted`, `lb_types`, `lb_types_pins`, `pin_set`, `lb_acl` and `set_cookie`; and of `rise_fall`,
//! `server_state`, `capacity_book`, `check_workers_rule` and `check_workers_probe`. Start at `values` and `health`.
#![tactic(auto)]

#[cfg(test)]
mod book;
#[cfg(test)]
mod checks;
#[cfg(test)]
mod conditions;
#[cfg(test)]
mod farms;
#[cfg(test)]
mod health;
#[cfg(test)]
mod keys;
#[cfg(test)]
mod pins;
#[cfg(test)]
mod requests;
#[cfg(test)]
mod taught;
#[cfg(test)]
mod texts;
#[cfg(test)]
mod usable;
#[cfg(test)]
mod values;
#[cfg(test)]
mod writers;
