//! What the head of a server's answer teaches of a cookie: the value that the client's next requests bring.
//!
//! Promised: `taught` gives the value of the last `Set-Cookie` field that counts for a name, and nothing where that field deletes the
//! cookie or the head is bad. `is_unfinished` says whether more bytes may teach something; if not, what was taught holds for whatever
//! follows. `taught_key` answers both in one call, and makes a table's key of the value, as `lb_acl` makes one of a request's. Only
//! `taught_key` allocates, and only for a key of more than 32 bytes. Start at `taught`, whose words are in `specs/Answers.antt`.
#![tactic(auto)]

mod answer;
mod bytes;
mod dates;
mod fields;
mod heads;
mod key;
mod laws;
mod lifetimes;
mod lines;
mod set_cookies;

pub use answer::{MOST_BYTES, is_unfinished, taught};
pub use key::{TaughtKey, learns, taught_key};
pub use laws::what_is_taught_stays;
