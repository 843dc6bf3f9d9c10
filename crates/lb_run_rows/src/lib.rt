//! Tests of the balancer as it runs, over loopback: clients, origins and operators are threads of the test. Workers of the relay over real
//! sockets: what clients get, and how a worker ends. And the program's jobs over readers and writers that fail.
//!
//! Tests alone, of `lb_run`, `http_relay_work`, `lb_cli` and `lb_replay`. Start at `days`, `workers` and `jobs`; `farm` has those whom a
//! balancer meets, `site` the configuration of the workers. Whole texts with their answers, files that aren't there and answers that can't be
//! written are cases of `tests/`, through the program itself.
#![tactic(auto)]

#[cfg(test)]
mod broken;
#[cfg(test)]
mod days;
#[cfg(test)]
mod ends;
#[cfg(test)]
mod farm;
#[cfg(test)]
mod jobs;
#[cfg(test)]
mod overtaken;
#[cfg(test)]
mod replays;
#[cfg(test)]
mod site;
#[cfg(test)]
mod workers;
