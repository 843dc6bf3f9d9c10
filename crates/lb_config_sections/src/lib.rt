//! A configuration as a list of sections, each with what its lines set, and the warnings of the lines that are ignored.
//!
//! Promised: `read_checked` gives exactly what `specs/References` defines: the lines from the first on, each judged after those
//! before it (`specs/SectionsSoFar`), up to the first fault; and if no line has one, the first name that no line declares.
//! `read_text` is the same except for those names. Start at `read_checked`. Private to `lb_config` and to the job `check` of `lb_cli`.
#![tactic(auto)]

mod cause;
mod checked;
mod config_section;
mod names;
mod sections;
mod sections_so_far;
mod setting_references;
mod text;
mod warning;

pub use cause::{Cause, ConfigFault, LocatedFault};
pub use checked::read_checked;
pub use config_section::{ConfigSection, NumberedSetting};
pub use sections::{Sections, read_sections};
pub use text::read_text;
pub use warning::Warning;
