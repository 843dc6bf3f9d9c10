//! Lines of a file, each put at the end of a text. The only error of each call is out of memory.
ghost use Rattle.std.specs.Prelude.{◌≡◌, ◌<◌, [], ◌∷◌, ◌++◌, true, codes, map, flat_map, OnOk};
ghost use Rattle.std.specs.Fmt.{decimal, digit_glyph};
ghost use Rattle.std.specs.List.{join_with_byte};
ghost use Rattle.pin_file.specs.KeyWords.{is_plain, escaped, text_word};
ghost use Rattle.dual_cert_text.specs.Spellings.{text_of_lines};
ghost use Rattle.pin_file.specs.Spellings.{wanted_word, server_word, pin_line, backend_line, backend_lines, spelling};

use crate::{BackendPins, FilePin, PinFile};
use itoa::Buffer;
use lb_types::Name;
use std::alloc::AllocError;

/// Puts the whole text of the file at the end.
///
/// One walk over the pins. A pin takes its key and at most some 40 bytes beside it and its servers' names.
pub fn push_file(text: &mut Vec<u8>, file: &PinFile) -> Result<(), AllocError>
    ensures { OnOk result (text.new.items ≡ text.old.items ++ spelling file.now) }
{
    push_first_line(text)?;
    push_backends(text, file.backends())?;
    push_last_line(text)
}

/// Puts the first line of a file, and its end, at the end. The lines of the backends follow.
pub fn push_first_line(text: &mut Vec<u8>) -> Result<(), AllocError>
    ensures { OnOk result (text.new.items ≡ text.old.items ++ codes "stickypins 1\n") }
{
    text.extend_from_slice(b"stickypins 1\n")
}

/// Puts the last line of a file, and its end, at the end.
pub fn push_last_line(text: &mut Vec<u8>) -> Result<(), AllocError>
    ensures { OnOk result (text.new.items ≡ text.old.items ++ codes "end\n") }
{
    text.extend_from_slice(b"end\n")
}

/// Puts the lines of the backends at the end.
fn push_backends(text: &mut Vec<u8>, backends: &[BackendPins]) -> Result<(), AllocError>
    ensures { OnOk result (text.new.items
        ≡ text.old.items ++ text_of_lines (flat_map (λ b. backend_lines b) backends.now)) }
{
    for backend in backends {
        push_backend(text, &backend.name)?;
        push_pins(text, backend.pins.as_slice())?;
    }
    Ok(())
}

/// Puts the line in front of a backend's pins, and its end, at the end.
#[tactic(auto, unfolding(crate::specs::Spellings::backend_line))]
pub fn push_backend(text: &mut Vec<u8>, name: &Name) -> Result<(), AllocError>
    ensures { OnOk result (text.new.items ≡ text.old.items ++ backend_line name.now ++ 10 ∷ []) }
{
    text.extend_from_slice(b"backend ")?;
    text.extend_from_slice(name.as_bytes())?;
    text.extend_from_slice(b"\n")
}

/// Puts the lines of the pins at the end.
fn push_pins(text: &mut Vec<u8>, pins: &[FilePin]) -> Result<(), AllocError>
    ensures { OnOk result (text.new.items
        ≡ text.old.items ++ text_of_lines (map (λ p. pin_line p) pins.now)) }
{
    for pin in pins {
        push_pin(text, pin)?;
    }
    Ok(())
}

/// Puts the pin's line and its end at the end.
#[tactic(auto, unfolding(crate::specs::Spellings::pin_line))]
pub fn push_pin(text: &mut Vec<u8>, pin: &FilePin) -> Result<(), AllocError>
    ensures { OnOk result (text.new.items ≡ text.old.items ++ pin_line pin.now ++ 10 ∷ []) }
{
    text.extend_from_slice(b"pin ")?;
    push_text_word(text, pin.key.as_bytes())?;
    text.extend_from_slice(b" ")?;
    push_wanted(text, pin.wanted.as_slice())?;
    text.extend_from_slice(b" ")?;
    text.extend_from_slice(server_word(&pin.server))?;
    push_numbers(text, pin.cost, pin.age)?;
    Ok(())
}

/// Puts the cost and the age, each after a space, and the line's end at the end.
fn push_numbers(text: &mut Vec<u8>, cost: u16, age: u64) -> Result<(), AllocError>
    ensures { OnOk result (text.new.items
        ≡ text.old.items ++ 32 ∷ decimal cost ++ 32 ∷ decimal age ++ 10 ∷ []) }
{
    let mut cost_digits = Buffer::new();
    let mut age_digits = Buffer::new();
    text.extend_from_slice(b" ")?;
    text.extend_from_slice(cost_digits.format(cost).as_bytes())?;
    text.extend_from_slice(b" ")?;
    text.extend_from_slice(age_digits.format(age).as_bytes())?;
    text.extend_from_slice(b"\n")
}

/// The word for the server.
fn server_word(server: &Option<Name>) -> &[u8]
    ensures { result.now ≡ server_word server.now }
{
    match server {
        Some(name) => name.as_bytes(),
        None => b"-",
    }
}

/// Puts the word for the wanted servers at the end.
fn push_wanted(text: &mut Vec<u8>, names: &[Name]) -> Result<(), AllocError>
    ensures { OnOk result (text.new.items ≡ text.old.items ++ wanted_word names.now) }
{
    let Some((first, more)) = names.split_first() else {
        return text.extend_from_slice(b"-");
    };
    push_names(text, first, more)
}

/// Puts the names, joined by commas, at the end.
fn push_names(text: &mut Vec<u8>, first: &Name, more: &[Name]) -> Result<(), AllocError>
    ensures { OnOk result (text.new.items
        ≡ text.old.items ++ join_with_byte 44 (first.now ∷ more.now)) }
{
    text.extend_from_slice(first.as_bytes())?;
    for name in more {
        text.extend_from_slice(b",")?;
        text.extend_from_slice(name.as_bytes())?;
    }
    Ok(())
}

/// Puts the bytes of a key at the end, those escaped that have to be.
#[tactic(auto, unfolding(crate::specs::KeyWords::text_word))]
pub(crate) fn push_text_word(text: &mut Vec<u8>, bytes: &[u8]) -> Result<(), AllocError>
    ensures { OnOk result (text.new.items ≡ text.old.items ++ text_word bytes.now) }
{
    if bytes == b"-".as_slice() {
        return text.extend_from_slice(b"%2D");
    }
    push_escaped_bytes(text, bytes)
}

fn push_escaped_bytes(text: &mut Vec<u8>, bytes: &[u8]) -> Result<(), AllocError>
    ensures { OnOk result (text.new.items ≡ text.old.items ++ flat_map (λ byte. escaped byte) bytes.now) }
{
    for byte in bytes {
        push_escaped(text, *byte)?;
    }
    Ok(())
}

/// Puts the byte at the end, escaped where it has to be.
fn push_escaped(text: &mut Vec<u8>, byte: u8) -> Result<(), AllocError>
    ensures { OnOk result (text.new.items ≡ text.old.items ++ escaped byte) }
{
    if is_plain(byte) {
        text.push(byte)?;
        return Ok(());
    }
    text.extend_from_slice(&[b'%', digit(byte / 16), digit(byte % 16)])
}

/// Whether the byte stands for itself: ASCII prints it, and it is neither a space nor `%`.
fn is_plain(byte: u8) -> bool
    ensures { result ≡ is_plain byte }
{
    byte.is_ascii_graphic() && byte != b'%'
}

/// The upper-case hexadecimal digit.
fn digit(value: u8) -> u8
    requires { value < 16 }
    ensures { result ≡ digit_glyph true value }
{
    if value < 10 {
        b'0' + value
    } else {
        b'A' + (value - 10)
    }
}
