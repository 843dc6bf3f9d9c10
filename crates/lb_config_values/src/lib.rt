//! What the lines of a section say together: single values, of which the last one counts, and servers with what `default-server`
//! says of them.
//!
//! Promised: `ProxyValues::behind`, `GlobalValues::behind` and `SharedCheck::behind` give the last value said, as `specs/Values` defines;
//! `Defaults::of` gives what a `defaults` section says, as `specs/DefaultsLines` defines; `read_servers` gives the servers as `specs/Servers`
//! defines. Start at `ProxyValues` and `ServerConfig`. Private to `lb_config`.
#![tactic(auto)]

mod defaults;
mod global_values;
mod http_check;
mod proxy_values;
mod server;
mod server_options;
mod servers;
mod timeouts;

pub use defaults::Defaults;
pub use global_values::GlobalValues;
pub use http_check::SharedCheck;
pub use proxy_values::ProxyValues;
pub use server::ServerConfig;
pub use servers::read_servers;
pub use timeouts::Timeouts;
