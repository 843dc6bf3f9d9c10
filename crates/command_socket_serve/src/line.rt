ghost use Rattle.std.specs.Prelude.{◌≡◌, length, map, IfOk, Ok};
ghost use Rattle.std.specs.List.{list_any};
ghost use Rattle.command_socket_serve.specs.Answers.{looked_up};
ghost use Rattle.lb_desk_backend.specs.Configured.{OpenInOrder};
ghost use Rattle.command_socket_serve.specs.Desks.{desk_seen};
ghost use Rattle.command_socket_serve.specs.Lines.{AnswersLine, AreAnswered, asked_in, next_behind, is_stop};
ghost use Rattle.command_socket_serve.specs.Outcomes.{Does};

use crate::answers::answer;
use crate::printing::{Printed, print_end, print_refused};
use crate::request::is_request;
use crate::{Console, Told};
use command_socket::{Command, CommandFault, SocketCommand, read_socket_commands};
use dual_cert_write::WriteFailed;
use lb_desk_ports::{Gate, Refused};
use lb_desk_steer::Steer;
use lb_types_counted::Counted;
use std::alloc::{AllocError, Global};
use std::io::Write;

/// Whether the program goes on after a line.
#[derive(Clone, Copy, Debug, PartialEq, Eq)]
pub enum Next {
    /// It goes on.
    GoOn,
    /// The line had the command `stop`.
    Stop,
}

/// What became of a line.
#[derive(Clone, Copy, Debug, PartialEq, Eq)]
pub struct Answered {
    pub next: Next,
    /// Whether the whole answer was printed. Where a write failed, all commands were carried out, and nothing more was printed.
    pub printed: Result<(), WriteFailed>,
}

/// Carries out the commands of a line, one after another, and prints their answers: the text of each, and then an empty line. There
/// is a desk for each backend of the configuration, in its order. The line is given without its end.
///
/// A line with which a request of HTTP begins, as `GET /;stop; HTTP/1.1`, is answered as one `100 UnknownCommand`: else a URL could carry
/// commands to a socket that is an address.
///
/// A change that is made has no text, and is reported to `told`; the text of a command at fault is its fault. A line has at most
/// 2,048 commands. Where there is not enough memory for them, none is carried out and `out of memory` is the one answer. A command
/// that runs out of memory has the same text. The commands after it are still carried out, and so are those after a failed write.
///
/// A command costs what it costs its desk: `plan` whole plannings, `show` a copy of what is shown. Nothing is flushed: give it a
/// writer that buffers.
pub fn answer_line<R, S: Steer<R>, G: Gate<R>, T: Told, W: Write>(
    rt: &R,
    alloc: Global,
    console: &Console<'_, G>,
    desks: &mut [S],
    told: &mut T,
    line: &[u8],
    out: &mut Counted<W>,
) -> Answered
    requires { OpenInOrder console.now.config.backends (map S.backend desks.old) }
    ensures answers { Does (AnswersLine (desk_seen S.entries S.planned_now S.backend S.sights) console.now line.now desks.old desks.new result.next)
        (T.told told.old) (T.told told.new) out.old (Ok tt) out.new result.printed }
    ensures backends { map S.backend desks.new ≡ map S.backend desks.old }
{
    let Ok(commands) = read_line(alloc, line) else {
        let printed = print_refused(out, Ok(()), Refused::Memory);
        return Answered {
            next: Next::GoOn,
            printed: print_end(out, printed),
        };
    };
    Answered {
        printed: answer_all(rt, alloc, console, desks, told, &commands, out),
        next: next_behind(&commands),
    }
}

/// The commands of a line, with its fault in the place of each that can't be read.
fn read_line(
    alloc: Global,
    line: &[u8],
) -> Result<Vec<Result<SocketCommand<'_>, CommandFault>>, AllocError>
    ensures { IfOk result (λ commands. commands.items ≡ asked_in line.now) }
{
    if !is_request(line) {
        return read_socket_commands(alloc, line);
    }
    let mut commands = Vec::new(alloc);
    commands.push(Err(CommandFault::UnknownCommand))?;
    Ok(commands)
}

/// Whether the program goes on after these commands.
fn next_behind(commands: &[Result<SocketCommand<'_>, CommandFault>]) -> Next
    ensures { result ≡ next_behind commands.now }
{
    if has_stop(commands) {
        Next::Stop
    } else {
        Next::GoOn
    }
}

fn has_stop(commands: &[Result<SocketCommand<'_>, CommandFault>]) -> bool
    ensures { result ≡ list_any is_stop commands.now }
{
    commands.iter().any(|said| is_stop(said))
}

fn is_stop(said: &Result<SocketCommand<'_>, CommandFault>) -> bool
    ensures { result ≡ is_stop said.now }
{
    matches!(said, Ok(SocketCommand::Plain(Command::Stop)))
}

/// Answers the commands one after another.
fn answer_all<R, S: Steer<R>, G: Gate<R>, T: Told, W: Write>(
    rt: &R,
    alloc: Global,
    console: &Console<'_, G>,
    desks: &mut [S],
    told: &mut T,
    commands: &[Result<SocketCommand<'_>, CommandFault>],
    out: &mut Counted<W>,
) -> Printed
    requires { length desks.old ≡ length console.now.config.backends }
    ensures answers { Does (AreAnswered (desk_seen S.entries S.planned_now S.backend S.sights) console.now commands.now desks.old desks.new)
        (T.told told.old) (T.told told.new) out.old (Ok tt) out.new result }
    ensures seats { length desks.new ≡ length desks.old }
{
    let mut printed = Ok(());
    for said in commands {
        printed = answer(rt, alloc, console, desks, told, said, out, printed);
        printed = print_end(out, printed);
    }
    printed
}
