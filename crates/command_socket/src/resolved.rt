ghost use Rattle.std.specs.Prelude.{◌≡◌, true, Some};
ghost use Rattle.command_socket.specs.Resolved.{change_in, command_fault, is_change, resolved};

use command_socket_words::{Command, CommandFault, Shown};
use lb_config::{Config, FindFault};
use server_state::Change;

/// A command whose names are looked up. Backends are given by their places among the configuration's backends.
#[derive(Clone, Copy, Debug, PartialEq, Eq)]
pub enum Resolved {
    /// Changes a server of the backend.
    Change(usize, Change),
    /// Plans the backend's pins again, and moves them.
    Plan(usize),
    /// Prints what is asked of the backend.
    Show(Shown, usize),
    /// Ends the program.
    Stop,
}

/// Whether the command changes a server.
pub fn is_change(command: &Command) -> bool
    ensures { result ≡ is_change command.now }
{
    matches!(command, Command::Set(_, _))
}

/// What a command that changes a server changes: the server has its place in its backend. Where the configuration has no such
/// backend, the fault is `NoBackend`, else `NoSuchServer` where the backend has no such server. Allocates nothing.
///
/// `look_up` is for all commands, and gives the backend too.
#[tactic(auto, unfolding(crate::specs::Resolved::change_in))]
pub fn resolve(config: &Config, command: &Command) -> Result<Change, CommandFault>
    requires { is_change command.now ≡ true }
    ensures { change_in config.now command.now ≡ Some result }
{
    let Command::Set(name, setting) = command else {
        unreachable!();
    };
    match config.find(&name.backend, &name.server) {
        Ok((_, server)) => Ok(Change {
            server,
            setting: *setting,
        }),
        Err(fault) => Err(command_fault(fault)),
    }
}

/// The command with its backend and its server. Where it names none that the configuration has, the fault is `NoBackend`, or
/// `NoSuchServer` in a backend that it has. Allocates nothing.
#[tactic(auto, unfolding(crate::specs::Resolved::resolved))]
pub fn look_up(config: &Config, command: &Command) -> Result<Resolved, CommandFault>
    ensures { result ≡ resolved config.now command.now }
{
    match command {
        Command::Set(name, setting) => match config.find(&name.backend, &name.server) {
            Ok((backend, server)) => Ok(Resolved::Change(
                backend,
                Change {
                    server,
                    setting: *setting,
                },
            )),
            Err(fault) => Err(command_fault(fault)),
        },
        Command::Plan(name) => match config.find_backend(name) {
            Ok(backend) => Ok(Resolved::Plan(backend)),
            Err(fault) => Err(command_fault(fault)),
        },
        Command::Show(what, name) => match config.find_backend(name) {
            Ok(backend) => Ok(Resolved::Show(*what, backend)),
            Err(fault) => Err(command_fault(fault)),
        },
        Command::Stop => Ok(Resolved::Stop),
    }
}

pub(crate) fn command_fault(fault: FindFault) -> CommandFault
    ensures { result ≡ command_fault fault }
{
    match fault {
        FindFault::NoBackend => CommandFault::NoBackend,
        FindFault::NoSuchServer => CommandFault::NoSuchServer,
    }
}
