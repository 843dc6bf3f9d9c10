ghost use Rattle.std.specs.Prelude.{◌≡◌};
ghost use Rattle.lb_config.specs.Finds.{find_backend, find_server};
ghost use Rattle.command_socket.specs.Resolved.{found_as};
ghost use Rattle.command_socket.specs.SocketResolved.{socket_resolved};
ghost use Rattle.command_socket.specs.declared.socket.SocketResolved.TheVariants.{Asked};
ghost use Rattle.command_socket.specs.declared.socket.BackendTask.TheVariants.{ChangeKey};
ghost use Rattle.command_socket.specs.declared.socket.PinChange.TheVariants.{Set};

use crate::resolved::{Resolved, command_fault, look_up};
use command_socket_words::{CommandFault, KeyWord, ServerName, SocketCommand};
use lb_config::Config;
use lb_types::{Name, ServerId};

/// What is done with the pins of a key.
#[derive(Clone, Copy, Debug, PartialEq, Eq)]
pub enum PinChange {
    /// They go.
    Clear,
    /// They stand at the server.
    Set(ServerId),
}

/// What the command socket alone is asked of a backend.
#[derive(Debug, Drop)]
pub enum BackendTask<'a> {
    /// Prints the pins of the key.
    ShowKey(KeyWord<'a>),
    /// Changes the pins of the key.
    ChangeKey(KeyWord<'a>, PinChange),
    /// Prints the sheet of the moment.
    ShowSheet,
    /// Prints what planning would come to.
    PlanDry,
}

/// A command of the command socket whose names are looked up. Backends are given by their places among the configuration's backends.
#[derive(Debug, Drop)]
pub enum SocketResolved<'a> {
    /// A command that scripts take too.
    Plain(Resolved),
    /// What is asked of the backend.
    Asked(usize, BackendTask<'a>),
}

/// The command with its backend and its server. Where it names none that the configuration has, the fault is `NoBackend`, or
/// `NoSuchServer` in a backend that it has. Allocates nothing.
#[tactic(auto, unfolding(crate::specs::SocketResolved::socket_resolved))]
pub fn look_up_socket<'a>(
    config: &Config,
    command: &SocketCommand<'a>,
) -> Result<SocketResolved<'a>, CommandFault>
    ensures { result ≡ socket_resolved config.now command.now }
{
    match command {
        SocketCommand::Plain(command) => match look_up(config, command) {
            Ok(found) => Ok(SocketResolved::Plain(found)),
            Err(fault) => Err(fault),
        },
        SocketCommand::ShowKey(name, key) => {
            asked_of(config, name, BackendTask::ShowKey(key.copy()))
        }
        SocketCommand::ClearKey(name, key) => asked_of(
            config,
            name,
            BackendTask::ChangeKey(key.copy(), PinChange::Clear),
        ),
        SocketCommand::SetKey(name, key) => set_asked(config, name, key),
        SocketCommand::ShowSheet(name) => asked_of(config, name, BackendTask::ShowSheet),
        SocketCommand::PlanDry(name) => asked_of(config, name, BackendTask::PlanDry),
    }
}

/// What is asked of the backend of this name.
fn asked_of<'a>(
    config: &Config,
    name: &Name,
    task: BackendTask<'a>,
) -> Result<SocketResolved<'a>, CommandFault>
    ensures { result ≡ found_as (λ place. Asked place task.entry) (find_backend config.now.backends name.now) }
{
    match config.find_backend(name) {
        Ok(backend) => Ok(SocketResolved::Asked(backend, task)),
        Err(fault) => Err(command_fault(fault)),
    }
}

/// That the pins of the key stand at the server.
fn set_asked<'a>(
    config: &Config,
    name: &ServerName,
    key: &KeyWord<'a>,
) -> Result<SocketResolved<'a>, CommandFault>
    ensures { result ≡ found_as (λ found. Asked found.0 (ChangeKey key.now (Set found.1)))
        (find_server config.now.backends name.now.backend name.now.server) }
{
    match config.find(&name.backend, &name.server) {
        Ok((backend, server)) => {
            let task = BackendTask::ChangeKey(key.copy(), PinChange::Set(server));
            Ok(SocketResolved::Asked(backend, task))
        }
        Err(fault) => Err(command_fault(fault)),
    }
}
