ghost use Rattle.lb_config_arguments.specs.Faults.{Gives};
ghost use Rattle.lb_config_lines.specs.StickLines.{pattern_at, stick_in, stick_at};

use lb_acl::KeySample;
use lb_config_arguments::{Fault, LineError, Words, is};
use lb_config_conditions::read_pattern;

/// The words after `stick`.
#[tactic(auto, unfolding(crate::specs::StickLines::stick_at))]
pub(crate) fn read_stick(words: &mut Words) -> Result<KeySample, LineError>
    ensures { Gives (λ sample. sample) result (stick_at words.old) }
{
    let word = words.next_word()?;
    check_stick(words, word)?;
    read_stick_on(words)
}

#[tactic(auto, unfolding(crate::specs::StickLines::stick_in))]
fn check_stick(words: &Words, word: &[u8]) -> Result<(), LineError>
    ensures { Gives (λ done. done) result (stick_in word.now) }
{
    if is(word, b"on") {
        return Ok(());
    }
    if is(word, b"match") || is(word, b"store-request") {
        return Err(Fault::LeftOut(words.copied(word)?).into());
    }
    Err(Fault::UnknownWord.into())
}

/// The words after `stick on`.
#[tactic(auto, unfolding(crate::specs::StickLines::pattern_at))]
fn read_stick_on(words: &mut Words) -> Result<KeySample, LineError>
    ensures { Gives (λ sample. sample) result (pattern_at words.old) }
{
    let word = words.next_word()?;
    let sample = read_pattern(words, word)?;
    let Some(more) = words.next_word_or_end()? else {
        return Ok(sample);
    };
    if is(more, b"if") || is(more, b"unless") || is(more, b"table") {
        return Err(Fault::LeftOut(words.copied(more)?).into());
    }
    Err(Fault::UnknownWord.into())
}
