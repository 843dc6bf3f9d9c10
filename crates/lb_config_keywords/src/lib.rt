//! The first words of a configuration's lines, the sections where they stand, and settings that hold no rule.
//!
//! Promised: a keyword, a section, an option and a time limit are those that `specs/Keywords`, `specs/Sections` and
//! `specs/SecondWords` give, and each reader gives exactly what `specs/SettingLines` gives, the value or the line's first fault.
//! Start at `ProxyKeyword`. Private to `lb_config`: this is the half of `lb_config_lines` that needs no conditions.
#![tactic(auto)]

mod balance;
mod http_check;
mod ignored;
mod keyword;
mod second_word;
mod section;
mod setting_lines;
mod stats_socket;

pub use balance::read_balance;
pub use http_check::{HttpCheck, read_http_check};
pub use ignored::{is_ignored, is_left_out, is_left_out_section};
pub use keyword::{CommonKeyword, ProxyKeyword, ServerKeyword};
pub use second_word::{OptionName, Timeout, is_ignored_option, is_ignored_timeout};
pub use section::Section;
pub use setting_lines::{
    read_bare_end, read_bind, read_default_backend, read_last_time, read_mode, read_tuning,
};
pub use stats_socket::{SocketAddress, StatsSocket, read_stats_socket};
