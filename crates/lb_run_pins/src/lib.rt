//! Pins that outlive the balancer's process: the file that keeps them, read before the balancer starts and written while it runs and at
//! its end.
//!
//! Promised: `pins_text` gives the spelling of `pin_file` for what `pin_file_return` says of each table's pins, in the order of the
//! tables. Inside, `copies` gives it those of all backends that are configured, in their order. No clause says when the file is read and
//! written, and what the system's files do; that is tested. Nor does one say at which `Pace` a text is made. Start at `Kept`.
//! Private to `lb_run`.
#![tactic(auto)]

mod fault;
mod files;
mod kept;
mod moments;
mod pace;
mod returning;
mod saving;
mod tables;
mod text_files;

pub use dual_cert_text::TextFault;
pub use fault::{PinsFault, Unwritten};
pub use files::read_pins;
pub use kept::{Kept, PinsPlace};
pub use moments::set_back;
pub use pace::Pace;
pub use returning::{greatest_age_of, return_kept};
pub use saving::{save, start_saving};
pub use tables::{Table, pins_text};
pub use text_files::TextFiles;
