//! What one line of a configuration says: a section's beginning, a setting, or nothing with a warning; or the line's first fault.
//!
//! Promised: `read_line` gives exactly what `specs/Lines` defines, over the tables of `lb_config_keywords` of the words of each
//! section. Names of backends, servers and ACLs are not looked up, and lines are not compared. Start at `read_line`. Private to
//! `lb_config`. Worked lines are in `lb_config_words_rows`.
#![tactic(auto)]

mod common_line;
mod line;
mod setting;
mod statement;
mod stick;

pub use common_line::{MAX_JOURNAL, MAX_RELAYS, MAX_TRIES};
pub use lb_config_keywords::{HttpCheck, Section, SocketAddress, StatsSocket, Timeout};
pub use line::read_line;
pub use setting::Setting;
pub use statement::{Header, IgnoredWords, Statement};
