//! The words of operators' command lines, as the command socket and scripts take them.
//!
//! Promised of `read_commands`: a line gives exactly the commands and faults that `specs/Commands.antt` says, in order, as long as
//! there is memory. A command is read exactly where its words are those of the table in `specs/Meanings.antt`. Of a command's faults
//! the first from the left is reported (`laws`). `read_socket_commands` does the same for lines of the command socket, which takes these
//! commands and some that scripts don't, as `specs/SocketCommands.antt` defines them. Start at `read_commands`. Private to
//! `command_socket`, which re-exports it.
#![tactic(auto)]

mod command;
mod fault;
mod key_word;
mod laws;
mod line;
mod set;
mod setting;
mod socket_command;
mod socket_line;
mod values;
mod words;

pub use command::{Command, ServerName, Shown};
pub use fault::CommandFault;
pub use key_word::KeyWord;
pub use laws::{
    a_line_says_its_commands, the_first_fault_is_told, words_say_a_command,
    words_say_a_socket_command,
};
pub use line::read_commands;
pub use server_state::{AdminState, Setting};
pub use socket_command::SocketCommand;
pub use socket_line::read_socket_commands;
