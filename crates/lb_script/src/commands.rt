ghost use Rattle.std.specs.Prelude.{◌≡◌, IfOk};
ghost use Rattle.lb_script.specs.Operators.{commanded, is_scripted, operator_line};

use crate::ScriptLine;
use command_socket::{Command, Resolved, look_up, read_commands};
use lb_config::Config;
use lb_desk_model::Event;
use std::alloc::{AllocError, Global};

/// What the operator's command asks for that the line is, if it is exactly one.
#[tactic(auto, unfolding(crate::specs::Operators::operator_line))]
pub(crate) fn read_operator_line(
    alloc: Global,
    config: &Config,
    line: &[u8],
) -> Result<Option<ScriptLine>, AllocError>
    ensures { IfOk result (λ said. said ≡ operator_line config.now line.now) }
{
    let commands = read_commands(alloc, line)?;
    match commands.as_slice() {
        [Ok(command)] => Ok(line_of(config, command)),
        _ => Ok(None),
    }
}

/// What the command asks for.
#[tactic(auto, unfolding(crate::specs::Operators::commanded))]
fn line_of(config: &Config, command: &Command) -> Option<ScriptLine>
    ensures { result ≡ commanded config.now command.now }
{
    if !is_scripted(command) {
        return None;
    }
    match look_up(config, command) {
        Ok(Resolved::Change(_, change)) => Some(ScriptLine::Event(Event::Command(change))),
        Ok(Resolved::Show(what, backend)) => Some(ScriptLine::Show(what, backend)),
        Ok(Resolved::Plan(_) | Resolved::Stop) => None,
        Err(fault) => Some(ScriptLine::Refused(fault)),
    }
}

fn is_scripted(command: &Command) -> bool
    ensures { result ≡ is_scripted command.now }
{
    matches!(command, Command::Set(_, _) | Command::Show(_, _))
}
