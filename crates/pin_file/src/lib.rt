//! Files of pins: the pins of each backend as a text that outlives the process.
//!
//! Promised: a file has one text. `read_pin_file` reads a file exactly where the text is the file's spelling, and else gives the text's
//! first fault; `push_file` writes the spelling. Each line is written by itself too, by `push_first_line`, `push_backend`, `push_pin` and
//! `push_last_line`, and a pin's line is read by `read_pin`. The spelling is in `specs/Spellings.antt`, the reading with its faults in
//! `specs/Texts.antt`. Start at `read_pin_file`.
#![tactic(auto)]

mod backend_pins;
mod file_pin;
mod pin_file;
mod pin_file_draft;
mod pin_file_text;
mod pin_line;
mod pushing;

pub use backend_pins::{BackendPins, PinList};
pub use dual_cert_text::{ReadError, TextFault};
pub use file_pin::{FilePin, NameList};
pub use pin_file::PinFile;
pub use pin_file_text::{one_text, read_pin_file};
pub use pin_line::read_pin;
pub use pushing::{push_backend, push_file, push_first_line, push_last_line, push_pin};
