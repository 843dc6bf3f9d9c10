ghost use Rattle.std.specs.Prelude.{◌≡◌, ◌≢◌, IfOk, IfErr, map};
ghost use Rattle.std.specs.String.{string_bytes};
ghost use Rattle.lb_cli_words.specs.Words.{texts};

use std::alloc::{AllocError, AllocGlobal, Global};
use std::env::Env;
use std::{env, io};

/// The words of the command line, with the program's name first. If they can't be read, it prints that on standard error. The error
/// is then the status to end with: 1 when out of memory, 2 if the system doesn't give them.
pub fn command_line<R: Env + Eprint + AllocGlobal>(rt: &R) -> Result<Vec<String>, u8>
    ensures { IfErr result (λ status. status ≢ 0) }
{
    let words = match env::args(rt) {
        Ok(words) => words,
        Err(error) if error.kind() == io::ErrorKind::OutOfMemory => return Err(out_of_memory(rt)),
        Err(_) => {
            let _ = eprintln!(rt; "the words of the command line can't be read");
            return Err(2);
        }
    };
    match words.collect::<Vec<String>>(rt.alloc()) {
        Ok(words) => Ok(words),
        Err(_) => Err(out_of_memory(rt)),
    }
}

/// The words as `read_words` takes them. When out of memory it prints that, and the error is the status to end with.
pub fn texts_of<'a, R: Eprint + AllocGlobal>(
    rt: &R,
    words: &'a [String],
) -> Result<Vec<&'a str>, u8>
    ensures ok { IfOk result (λ found. texts found.items ≡ map string_bytes words.now) }
    ensures status { IfErr result (λ status. status ≢ 0) }
{
    match listed(rt.alloc(), words) {
        Ok(texts) => Ok(texts),
        Err(_) => Err(out_of_memory(rt)),
    }
}

/// The words' texts in a list.
fn listed<'a>(alloc: Global, words: &'a [String]) -> Result<Vec<&'a str>, AllocError>
    ensures { IfOk result (λ found. texts found.items ≡ map string_bytes words.now) }
{
    let mut texts = Vec::with_capacity(alloc, words.len())?;
    for word in words {
        texts.push(word.as_str())?;
    }
    Ok(texts)
}

/// Prints on standard error that memory ran out, and returns the status to end with.
pub(crate) fn out_of_memory(rt: &impl Eprint) -> u8
    ensures { result ≡ 1 }
{
    let _ = eprintln!(rt; "out of memory");
    1
}
