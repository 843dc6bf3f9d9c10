ghost use Rattle.std.specs.Prelude.{◌≡◌, ◌∷◌, [], ◌++◌, ◌<◌, ◌^◌, OnOk, IfOk, All};
ghost use Rattle.haproxy_commands.specs.Writing.{IsMove, escaped, spelled, command_text, words_of, clear_words, set_words, line_of, text_of};

use crate::Move;
use crate::bytes::needs_backslash;
use itoa::Buffer;
use std::alloc::{AllocError, Global};

/// The lines of the moves.
pub(crate) fn moves_text(
    alloc: Global,
    table: &[u8],
    moves: &[Move<'_>],
) -> Result<Vec<u8>, AllocError>
    ensures text { IfOk result (λ text. text.items ≡ text_of table.now moves.now) }
    ensures small { OnOk result (All IsMove moves.now) }
{
    let mut text = Vec::new(alloc);
    for entry in moves {
        push_line(&mut text, table, entry)?;
    }
    Ok(text)
}

/// Appends the line of a move: the two commands, with `;` between them.
fn push_line(text: &mut Vec<u8>, table: &[u8], entry: &Move<'_>) -> Result<(), AllocError>
    ensures line { OnOk result (text.new.items ≡ text.old.items ++ line_of table.now entry.now) }
    ensures small { entry.now.server < 2 ^ 32 }
{
    let server = entry.server;
    push_clear(text, table, entry.key)?;
    text.push(b';')?;
    push_set(text, table, entry.key, server)?;
    text.push(b'\n')?;
    Ok(())
}

/// Appends the command that removes the key's entry.
fn push_clear(text: &mut Vec<u8>, table: &[u8], key: &[u8]) -> Result<(), AllocError>
    ensures { OnOk result (text.new.items ≡ text.old.items ++ command_text (clear_words table.now key.now)) }
{
    push_command(text, b"clear", &[b"table", table, b"key", key])
}

/// Appends the command that makes an entry of the key.
fn push_set(text: &mut Vec<u8>, table: &[u8], key: &[u8], server: u32) -> Result<(), AllocError>
    ensures { OnOk result (text.new.items ≡ text.old.items ++ command_text (set_words table.now key.now server)) }
{
    let mut digits = Buffer::new();
    let number = digits.format(server).as_bytes();
    push_command(
        text,
        b"set",
        &[b"table", table, b"key", key, b"data.server_id", number],
    )
}

/// Appends the words, with a blank between them.
fn push_command(text: &mut Vec<u8>, first: &[u8], more: &[&[u8]]) -> Result<(), AllocError>
    ensures { OnOk result (text.new.items ≡ text.old.items ++ command_text (words_of first.now more.now)) }
{
    push_word(text, first)?;
    for word in more {
        push_next(text, word)?;
    }
    Ok(())
}

/// Appends a blank and the word.
fn push_next(text: &mut Vec<u8>, word: &[u8]) -> Result<(), AllocError>
    ensures { OnOk result (text.new.items ≡ (text.old.items ++ 32 ∷ []) ++ spelled word.now) }
{
    text.push(b' ')?;
    push_word(text, word)
}

/// Appends the word, with a backslash before each byte that needs one.
fn push_word(text: &mut Vec<u8>, word: &[u8]) -> Result<(), AllocError>
    ensures { OnOk result (text.new.items ≡ text.old.items ++ spelled word.now) }
{
    for byte in word {
        push_byte(text, *byte)?;
    }
    Ok(())
}

/// Appends the byte, with a backslash before it if it needs one.
fn push_byte(text: &mut Vec<u8>, byte: u8) -> Result<(), AllocError>
    ensures { OnOk result (text.new.items ≡ text.old.items ++ escaped byte) }
{
    if needs_backslash(byte) {
        text.push(b'\\')?;
    }
    text.push(byte)?;
    Ok(())
}
