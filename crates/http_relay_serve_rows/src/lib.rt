//! Whole requests through `serve_one`, over scripted wires, ports, clocks and dialers; and of its parts the reading of heads and their
//! forwarded form, the queue before a full server, and what goes out in one write. And what configurations say of requests: heads with what
//! their backends are asked, and how servers are reached.
//!
//! Tests alone. Each expected text was written by hand. Start at `requests`; `site` has the configuration of the tests. Of `lb_routes` start
//! at `routed`; `farm` has the configuration.
#![tactic(auto)]

#[cfg(test)]
mod causes;
#[cfg(test)]
mod cuts;
#[cfg(test)]
mod farm;
#[cfg(test)]
mod forwarding;
#[cfg(test)]
mod heads;
#[cfg(test)]
mod joint_writes;
#[cfg(test)]
mod lessons;
#[cfg(test)]
mod queues;
#[cfg(test)]
mod requests;
#[cfg(test)]
mod routed;
#[cfg(test)]
mod site;
#[cfg(test)]
mod targets;
