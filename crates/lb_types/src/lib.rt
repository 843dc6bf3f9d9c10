//! The small values that every layer speaks of: servers, sets of servers, places, moments and names, how large a backend may
//! be, how it balances and what table it has; and a writer that counts its failures.
//!
//! Promised: a set is exactly the servers that were put into it, and a name is 1 to 64 lawful bytes. `Counted` is passed on
//! from the crate `lb_types_counted`. Start at `ServerSet`, whose definition is in `specs/Servers.antt`.
#![tactic(auto)]

mod balance;
mod limits;
mod moment;
mod name;
mod server_id;
mod server_set;
mod table_settings;

pub use balance::Balance;
pub use lb_types_counted::Counted;
pub use limits::{MAX_CONNECTIONS, MAX_COST, MAX_NAME_BYTES, MAX_PINS, MAX_SERVERS, MAX_WEIGHT};
pub use moment::Moment;
pub use name::{Name, NameFault};
pub use server_id::{Place, ServerId};
pub use server_set::ServerSet;
pub use table_settings::TableSettings;
