ghost use Rattle.std.specs.Prelude.{◌≤◌, IfOk};
ghost use Rattle.lb_config_arguments.specs.Faults.{Gives};
ghost use Rattle.lb_config_keywords.specs.SettingLines.{bare_end_at, mode_in, mode_at, bind_at, default_backend_at, tuning_at, last_time_at};

use lb_config_arguments::{
    Endpoint, Fault, LineError, Words, is, read_listen_endpoint, read_number, read_time,
};
use lb_types::Name;

/// The end of the line, where a word more is left out.
#[tactic(auto, unfolding(crate::specs::SettingLines::bare_end_at))]
pub fn read_bare_end(words: &mut Words) -> Result<(), LineError>
    ensures { Gives (λ done. done) result (bare_end_at words.old) }
{
    match words.next_word_or_end()? {
        Some(word) => Err(Fault::LeftOut(words.copied(word)?).into()),
        None => Ok(()),
    }
}

/// The words after `mode`.
#[tactic(auto, unfolding(crate::specs::SettingLines::mode_at))]
pub fn read_mode(words: &mut Words) -> Result<(), LineError>
    ensures { Gives (λ done. done) result (mode_at words.old) }
{
    let word = words.next_word()?;
    check_mode(words, word)?;
    words.end()
}

#[tactic(auto, unfolding(crate::specs::SettingLines::mode_in))]
fn check_mode(words: &Words, word: &[u8]) -> Result<(), LineError>
    ensures { Gives (λ done. done) result (mode_in word.now) }
{
    if is(word, b"http") {
        return Ok(());
    }
    if is(word, b"tcp") {
        return Err(Fault::LeftOut(words.copied(word)?).into());
    }
    Err(Fault::UnknownWord.into())
}

/// The words after `bind`.
#[tactic(auto, unfolding(crate::specs::SettingLines::bind_at))]
pub fn read_bind(words: &mut Words) -> Result<Endpoint, LineError>
    ensures { Gives (λ endpoint. endpoint) result (bind_at words.old) }
{
    let word = words.next_word()?;
    let endpoint = read_listen_endpoint(words, word, word)?;
    read_bare_end(words)?;
    Ok(endpoint)
}

/// The words after `default_backend`.
#[tactic(auto, unfolding(crate::specs::SettingLines::default_backend_at))]
pub fn read_default_backend(words: &mut Words) -> Result<Name, LineError>
    ensures { Gives (λ name. name) result (default_backend_at words.old) }
{
    let name = words.next_name()?;
    words.end()?;
    Ok(name)
}

/// A number from `least` to `most` and the line's end.
#[tactic(auto, unfolding(crate::specs::SettingLines::tuning_at))]
pub fn read_tuning(least: u64, most: u64, words: &mut Words) -> Result<u64, LineError>
    ensures exact { Gives (λ number. number) result (tuning_at least most words.old) }
    ensures at_most { IfOk result (λ number. number ≤ most) }
{
    let word = words.next_word()?;
    let number = read_number(least, most, word)?;
    words.end()?;
    Ok(number)
}

/// A time in milliseconds and the line's end.
#[tactic(auto, unfolding(crate::specs::SettingLines::last_time_at))]
pub fn read_last_time(words: &mut Words) -> Result<u32, LineError>
    ensures { Gives (λ millis. millis) result (last_time_at words.old) }
{
    let word = words.next_word()?;
    let millis = read_time(word)?;
    words.end()?;
    Ok(millis)
}
