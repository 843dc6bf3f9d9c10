//! Tests of what reads, writes, checks and groups plans and sheets, which cross the crates from `dual_cert_plan` to
//! `pin_groups_spread`, and of files of pins. What is found of whole texts are cases of `tests/`, through `verify` and `plan`.
#![tactic(auto)]

#[cfg(test)]
mod parts;
#[cfg(test)]
mod pin_files;
#[cfg(test)]
mod reading;
#[cfg(test)]
mod small_farm;
#[cfg(test)]
mod small_views;
#[cfg(test)]
mod texts;
#[cfg(test)]
mod views;
#[cfg(test)]
mod writing;
