ghost use Rattle.std.specs.Prelude.{◌≡◌, ◌∷◌, [], true, IfOk, IfNone, IfSome};
ghost use Rattle.command_socket_words.specs.Words.{words_in, is_filled};
ghost use Rattle.command_socket_words.specs.Commands.{shown_in, show_of, plan_of, command_of, commands_of};

use crate::set::{read_set, read_switch};
use crate::values::read_name;
use crate::words::{Words, is};
use crate::{Command, CommandFault, Shown};
use lb_types_text::Parts;
use server_state::AdminState;
use std::alloc::{AllocError, Global};

/// How many bytes a line may have, its end not counted.
pub(crate) const LONGEST_LINE: usize = 4096;

/// The commands of a line, which is given without its end. For each command that can't be read it gives the fault
/// instead.
///
/// Commands are separated by semicolons, words by any number of spaces; a tab is part of a word. What has no word is
/// passed over. A line of more than 4096 bytes is one `UnknownCommand`.
///
/// One walk over the line. The memory is that of one list of what it gives: at most 2048 commands and faults, for no more
/// fit in a line. The only error is out of memory.
pub fn read_commands(
    alloc: Global,
    line: &[u8],
) -> Result<Vec<Result<Command, CommandFault>>, AllocError>
    ensures { IfOk result (λ commands. commands.items ≡ commands_of line.now) }
{
    let mut commands = Vec::new(alloc);
    if line.len() > LONGEST_LINE {
        commands.push(Err(CommandFault::UnknownCommand))?;
        return Ok(commands);
    }
    let mut texts = Parts::new(line, b';');
    while let Some(text) = texts.next_part() {
        if let Some(command) = read_text(text) {
            commands.push(command)?;
        }
    }
    Ok(commands)
}

/// The command between two semicolons, or its fault, where there is a word.
fn read_text(text: &[u8]) -> Option<Result<Command, CommandFault>>
    ensures none { IfNone result (words_in text.now ≡ []) }
    ensures word { IfSome result (λ _. is_filled (words_in text.now) ≡ true) }
    ensures some { IfSome result (λ command. command ≡ command_of (words_in text.now)) }
{
    let mut words = Words::new(text);
    let first = words.next_word()?;
    Some(read_command(first, &mut words))
}

/// The command whose words these are: the first one, and those that follow.
#[tactic(auto, unfolding(crate::specs::Commands::command_of, crate::specs::Commands::set_of, crate::specs::Commands::show_of))]
pub(crate) fn read_command(first: &[u8], words: &mut Words) -> Result<Command, CommandFault>
    ensures { result ≡ command_of (first.now ∷ words.old) }
{
    if is(first, b"set") {
        let what = words.due_word()?;
        return read_set(what, words);
    }
    if is(first, b"enable") {
        return read_switch(AdminState::Ready, words);
    }
    if is(first, b"disable") {
        return read_switch(AdminState::Maint, words);
    }
    if is(first, b"plan") {
        return read_plan(words);
    }
    if is(first, b"show") {
        let what = words.due_word()?;
        return read_show(what, words);
    }
    if is(first, b"stop") {
        words.end()?;
        return Ok(Command::Stop);
    }
    Err(CommandFault::UnknownCommand)
}

/// What follows `plan`.
#[tactic(auto, unfolding(crate::specs::Commands::plan_of, crate::specs::Words::behind, crate::specs::Words::last))]
fn read_plan(words: &mut Words) -> Result<Command, CommandFault>
    ensures { result ≡ plan_of words.old }
{
    if !is(words.due_word()?, b"backend") {
        return Err(CommandFault::UnknownCommand);
    }
    let backend = read_name(words.due_word()?)?;
    words.end()?;
    Ok(Command::Plan(backend))
}

/// What `show` and these words say: the first one, and those that follow.
#[tactic(auto, unfolding(crate::specs::Commands::show_of, crate::specs::Words::last))]
pub(crate) fn read_show(what: &[u8], words: &mut Words) -> Result<Command, CommandFault>
    ensures { result ≡ show_of (what.now ∷ words.old) }
{
    let shown = read_shown(what)?;
    let backend = read_name(words.due_word()?)?;
    words.end()?;
    Ok(Command::Show(shown, backend))
}

/// What `show` is asked for.
#[tactic(auto, unfolding(crate::specs::Commands::shown_in))]
fn read_shown(word: &[u8]) -> Result<Shown, CommandFault>
    ensures { result ≡ shown_in word.now }
{
    if is(word, b"plan") {
        return Ok(Shown::Plan);
    }
    if is(word, b"table") {
        return Ok(Shown::Table);
    }
    if is(word, b"journal") {
        return Ok(Shown::Journal);
    }
    Err(CommandFault::UnknownCommand)
}
