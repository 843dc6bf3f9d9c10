ghost use Rattle.std.specs.Prelude.{◌≡◌, ◌∷◌, [], true, IfOk, IfNone, IfSome};
ghost use Rattle.command_socket_words.specs.Words.{words_in, is_filled};
ghost use Rattle.command_socket_words.specs.Commands.{command_of};
ghost use Rattle.command_socket_words.specs.SocketCommands.{clear_of, dry_of, key_of, keyed_of, placed_of, plan_backend_of, plainly, rows_of, set_table_of, show_table_of, socket_command_of, socket_commands_of, socket_set_of, socket_show_of};

use crate::line::{LONGEST_LINE, read_command, read_show};
use crate::set::read_set;
use crate::values::read_name;
use crate::words::{Words, is};
use crate::{Command, CommandFault, KeyWord, ServerName, Shown, SocketCommand};
use lb_types::Name;
use lb_types_text::Parts;
use std::alloc::{AllocError, Global};

/// The commands of a line of the command socket, which is given without its end. For each command that can't be read it gives the
/// fault instead.
///
/// Lines are split as `read_commands` splits them. A command that it reads is read as the same one here.
///
/// One walk over the line. The memory is that of one list of what it gives: at most 2048 commands and faults, for no more
/// fit in a line. The only error is out of memory.
pub fn read_socket_commands(
    alloc: Global,
    line: &[u8],
) -> Result<Vec<Result<SocketCommand<'_>, CommandFault>>, AllocError>
    ensures { IfOk result (λ commands. commands.items ≡ socket_commands_of line.now) }
{
    let mut commands = Vec::new(alloc);
    if line.len() > LONGEST_LINE {
        commands.push(Err(CommandFault::UnknownCommand))?;
        return Ok(commands);
    }
    let mut texts = Parts::new(line, b';');
    while let Some(text) = texts.next_part() {
        if let Some(command) = read_text(text) {
            commands.push(command)?;
        }
    }
    Ok(commands)
}

/// The command between two semicolons, or its fault, where there is a word.
fn read_text(text: &[u8]) -> Option<Result<SocketCommand<'_>, CommandFault>>
    ensures none { IfNone result (words_in text.now ≡ []) }
    ensures word { IfSome result (λ _. is_filled (words_in text.now) ≡ true) }
    ensures some { IfSome result (λ command. command ≡ socket_command_of (words_in text.now)) }
{
    let mut words = Words::new(text);
    let first = words.next_word()?;
    Some(read_socket_command(first, &mut words))
}

/// The command whose words these are: the first one, and those that follow.
#[tactic(auto, unfolding(crate::specs::SocketCommands::socket_command_of, crate::specs::Words::behind))]
fn read_socket_command<'a>(
    first: &[u8],
    words: &mut Words<'a>,
) -> Result<SocketCommand<'a>, CommandFault>
    ensures { result ≡ socket_command_of (first.now ∷ words.old) }
{
    if is(first, b"set") {
        return read_socket_set(words);
    }
    if is(first, b"clear") {
        return read_clear(words);
    }
    if is(first, b"show") {
        return read_socket_show(words);
    }
    if is(first, b"plan") {
        if !is(words.due_word()?, b"backend") {
            return Err(CommandFault::UnknownCommand);
        }
        return read_plan_backend(words);
    }
    plainly(read_command(first, words))
}

/// A command that scripts take too.
fn plainly<'a>(read: Result<Command, CommandFault>) -> Result<SocketCommand<'a>, CommandFault>
    ensures { result ≡ plainly read }
{
    Ok(SocketCommand::Plain(read?))
}

/// What follows `set`.
#[tactic(auto, unfolding(crate::specs::SocketCommands::socket_set_of))]
fn read_socket_set<'a>(words: &mut Words<'a>) -> Result<SocketCommand<'a>, CommandFault>
    ensures { result ≡ socket_set_of words.old }
{
    let what = words.due_word()?;
    if is(what, b"table") {
        return read_set_table(words);
    }
    plainly(read_set(what, words))
}

/// What follows `set table`.
#[tactic(auto, unfolding(crate::specs::SocketCommands::set_table_of, crate::specs::Words::behind))]
fn read_set_table<'a>(words: &mut Words<'a>) -> Result<SocketCommand<'a>, CommandFault>
    ensures { result ≡ set_table_of words.old }
{
    let backend = read_name(words.due_word()?)?;
    if !is(words.due_word()?, b"key") {
        return Err(CommandFault::UnknownCommand);
    }
    let (key, server) = read_placed(words)?;
    Ok(SocketCommand::SetKey(ServerName { backend, server }, key))
}

/// A key, and the server where its pins are to stand.
#[tactic(auto, unfolding(crate::specs::SocketCommands::placed_of, crate::specs::Words::behind, crate::specs::Words::last))]
fn read_placed<'a>(words: &mut Words<'a>) -> Result<(KeyWord<'a>, Name), CommandFault>
    ensures { result ≡ placed_of words.old }
{
    let key = KeyWord::new(words.due_word()?);
    if !is(words.due_word()?, b"server") {
        return Err(CommandFault::UnknownCommand);
    }
    let server = read_name(words.due_word()?)?;
    words.end()?;
    Ok((key, server))
}

/// What follows `clear`.
#[tactic(auto, unfolding(crate::specs::SocketCommands::clear_of, crate::specs::Words::behind))]
fn read_clear<'a>(words: &mut Words<'a>) -> Result<SocketCommand<'a>, CommandFault>
    ensures { result ≡ clear_of words.old }
{
    if !is(words.due_word()?, b"table") {
        return Err(CommandFault::UnknownCommand);
    }
    let (backend, key) = read_keyed(words)?;
    Ok(SocketCommand::ClearKey(backend, key))
}

/// A backend, and a key of its table.
#[tactic(auto, unfolding(crate::specs::SocketCommands::keyed_of, crate::specs::SocketCommands::key_of, crate::specs::Words::behind))]
fn read_keyed<'a>(words: &mut Words<'a>) -> Result<(Name, KeyWord<'a>), CommandFault>
    ensures { result ≡ keyed_of words.old }
{
    let backend = read_name(words.due_word()?)?;
    let word = words.due_word()?;
    let key = read_key(word, words)?;
    Ok((backend, key))
}

/// The key after the word that has to be `key`.
#[tactic(auto, unfolding(crate::specs::SocketCommands::key_of, crate::specs::Words::behind, crate::specs::Words::last))]
fn read_key<'a>(word: &[u8], words: &mut Words<'a>) -> Result<KeyWord<'a>, CommandFault>
    ensures { result ≡ key_of (word.now ∷ words.old) }
{
    if !is(word, b"key") {
        return Err(CommandFault::UnknownCommand);
    }
    let key = KeyWord::new(words.due_word()?);
    words.end()?;
    Ok(key)
}

/// What follows `show`.
#[tactic(auto, unfolding(crate::specs::SocketCommands::socket_show_of, crate::specs::Words::last))]
fn read_socket_show<'a>(words: &mut Words<'a>) -> Result<SocketCommand<'a>, CommandFault>
    ensures { result ≡ socket_show_of words.old }
{
    let what = words.due_word()?;
    if is(what, b"table") {
        return read_show_table(words);
    }
    if is(what, b"sheet") {
        let backend = read_name(words.due_word()?)?;
        words.end()?;
        return Ok(SocketCommand::ShowSheet(backend));
    }
    plainly(read_show(what, words))
}

/// What follows `show table`.
#[tactic(auto, unfolding(crate::specs::SocketCommands::show_table_of, crate::specs::SocketCommands::rows_of))]
fn read_show_table<'a>(words: &mut Words<'a>) -> Result<SocketCommand<'a>, CommandFault>
    ensures { result ≡ show_table_of words.old }
{
    let backend = read_name(words.due_word()?)?;
    let Some(word) = words.next_word() else {
        return Ok(SocketCommand::Plain(Command::Show(Shown::Table, backend)));
    };
    let key = read_key(word, words)?;
    Ok(SocketCommand::ShowKey(backend, key))
}

/// What follows `plan backend`.
#[tactic(auto, unfolding(crate::specs::SocketCommands::plan_backend_of, crate::specs::SocketCommands::dry_of, crate::specs::Words::behind))]
fn read_plan_backend<'a>(words: &mut Words<'a>) -> Result<SocketCommand<'a>, CommandFault>
    ensures { result ≡ plan_backend_of words.old }
{
    let backend = read_name(words.due_word()?)?;
    let Some(word) = words.next_word() else {
        return Ok(SocketCommand::Plain(Command::Plan(backend)));
    };
    if !is(word, b"dry") {
        return Err(CommandFault::UnknownCommand);
    }
    words.end()?;
    Ok(SocketCommand::PlanDry(backend))
}
