//! What a health check sends to its server, made once when the configuration is read.
//!
//! Promised: `CheckRule::http` keeps exactly the bytes that `specs/CheckRequests.antt` defines. The servers that are checked under one
//! `option httpchk` share its `RequestLine`. Start at `CheckRule`.
#![tactic(auto)]

mod request_line;
mod rule;

pub use request_line::RequestLine;
pub use rule::{CheckRequest, CheckRule};
