//! What a rule of the configuration asks of a request, and the key that `stick on` takes from it.
//!
//! Promised: `Cond::eval`, `designated`, `pin_cost` and `pin_key` are their definitions in `specs/Conds`, `Rules` and `Keys`. Only
//! `designated` and `pin_key` allocate, and rules that name one ACL share it. Start at `Cond::eval`.
#![tactic(auto)]

mod acl;
mod bytes;
mod cond;
mod head;
mod key;
mod latest;
mod matching;
mod network;
mod path;
mod rules;
mod text;

pub use acl::{Acl, AclLine, Sample, SourceTest, TextTest};
pub use bytes::trimmed;
pub use cond::{Cond, Conjunction, Polarity, Term};
pub use head::{Field, Head, Version};
pub use key::{KeyLen, KeySample, MAX_KEY_LEN, StickOn, TableType, pin_key};
pub use matching::Matching;
pub use network::Network;
pub use path::path_of;
pub use rules::{PinCost, UseServer, designated, pin_cost};
pub use text::Text;
