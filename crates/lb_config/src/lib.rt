//! The configuration as the program uses it: frontends and backends, each with what its section, the `defaults` before it and the
//! manual's defaults say.
//!
//! Promised: `read_config` gives the configuration that `specs/Configs` defines of the sections of a text without a fault, or the
//! text's first fault. `Config::find` looks names up. Start at `Config`.
#![tactic(auto)]

mod backend;
mod config;
mod find;
mod frontend;
mod kept;
mod names;
mod proxies_so_far;
mod proxy;
mod reading;

pub use backend::BackendConfig;
pub use config::Config;
pub use find::FindFault;
pub use frontend::Frontend;
pub use reading::read_config;
