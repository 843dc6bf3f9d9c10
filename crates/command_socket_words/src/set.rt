ghost use Rattle.std.specs.Prelude.{◌≡◌, ◌∷◌};
ghost use Rattle.command_socket_words.specs.Commands.{switch_of, numbered_of, server_numbered_of, set_server_of, set_of};

use crate::setting::read_setting;
use crate::values::{read_number, read_server};
use crate::words::{Words, is};
use crate::{Command, CommandFault, ServerName};
use server_state::{AdminState, Setting};

/// What follows `enable` or `disable`.
#[tactic(auto, unfolding(crate::specs::Commands::switch_of, crate::specs::Words::behind, crate::specs::Words::last))]
pub(crate) fn read_switch(state: AdminState, words: &mut Words) -> Result<Command, CommandFault>
    ensures { result ≡ switch_of state words.old }
{
    if !is(words.due_word()?, b"server") {
        return Err(CommandFault::UnknownCommand);
    }
    let server = read_server(words.due_word()?)?;
    words.end()?;
    Ok(Command::Set(server, Setting::Admin(state)))
}

/// A server, and a number for it.
#[tactic(auto, unfolding(crate::specs::Commands::numbered_of, crate::specs::Words::last))]
fn read_numbered(words: &mut Words) -> Result<(ServerName, u64), CommandFault>
    ensures { result ≡ numbered_of words.old }
{
    let server = read_server(words.due_word()?)?;
    let number = read_number(words.due_word()?)?;
    words.end()?;
    Ok((server, number))
}

/// The word `server`, a server, and a number for it.
#[tactic(auto, unfolding(crate::specs::Commands::server_numbered_of, crate::specs::Words::behind))]
fn read_server_numbered(words: &mut Words) -> Result<(ServerName, u64), CommandFault>
    ensures { result ≡ server_numbered_of words.old }
{
    if !is(words.due_word()?, b"server") {
        return Err(CommandFault::UnknownCommand);
    }
    read_numbered(words)
}

/// What follows `set server`.
#[tactic(auto, unfolding(crate::specs::Commands::set_server_of))]
fn read_set_server(words: &mut Words) -> Result<Command, CommandFault>
    ensures { result ≡ set_server_of words.old }
{
    let server = read_server(words.due_word()?)?;
    let setting = read_setting(words)?;
    Ok(Command::Set(server, setting))
}

/// What `set` and these words say: the first one, and those that follow.
#[tactic(auto, unfolding(crate::specs::Commands::set_of))]
pub(crate) fn read_set(what: &[u8], words: &mut Words) -> Result<Command, CommandFault>
    ensures { result ≡ set_of (what.now ∷ words.old) }
{
    if is(what, b"server") {
        return read_set_server(words);
    }
    if is(what, b"weight") {
        let (server, weight) = read_numbered(words)?;
        return Ok(Command::Set(server, Setting::Weight(weight)));
    }
    if is(what, b"maxconn") {
        let (server, most) = read_server_numbered(words)?;
        return Ok(Command::Set(server, Setting::MaxConnections(most)));
    }
    if is(what, b"maxpins") {
        let (server, most) = read_server_numbered(words)?;
        return Ok(Command::Set(server, Setting::MaxPins(most)));
    }
    Err(CommandFault::UnknownCommand)
}
