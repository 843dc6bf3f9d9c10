//! The commands of operators, as the command socket and scripts take them.
//!
//! Promised: `read_commands` gives exactly the commands and faults of the definition, in order. `look_up` gives the places of the
//! backend and the server that a command names, and `resolve` the change of a command that changes a server, as `specs/Resolved`
//! defines them; `look_up_socket` does so for commands of the command socket, by `specs/SocketResolved`. A backend that doesn't exist
//! is reported first, then a server that doesn't exist. How words are read is in the crate `command_socket_words`, which is private to
//! this one and its tests. Start at `read_commands`, and at `look_up` for the names.
#![tactic(auto)]

mod resolved;
mod socket;

pub use command_socket_words::{
    AdminState, Command, CommandFault, KeyWord, ServerName, Setting, Shown, SocketCommand,
    a_line_says_its_commands, read_commands, read_socket_commands, the_first_fault_is_told,
    words_say_a_command,
};
pub use resolved::{Resolved, is_change, look_up, resolve};
pub use socket::{BackendTask, PinChange, SocketResolved, look_up_socket};
