ghost use Rattle.std.specs.Prelude.{◌≡◌};
ghost use Rattle.lb_config_arguments.specs.Faults.{Gives};
ghost use Rattle.lb_config_arguments.specs.Reading.{each_word};
ghost use Rattle.lb_config_conditions.specs.CondLines.{no_cond, cond_word, cond_at, polarity_in, rule_cond_at, optional_cond_at};

use crate::UnresolvedCond;
use crate::cond_draft::CondDraft;
use lb_acl::Polarity;
use lb_config_arguments::{Fault, LineError, Words, is};

/// `if` or `unless` and a condition up to the line's end, which have to be there.
#[tactic(auto, unfolding(crate::specs::CondLines::rule_cond_at))]
pub fn read_rule_cond(words: &mut Words) -> Result<UnresolvedCond, LineError>
    ensures { Gives (λ cond. cond) result (rule_cond_at words.old) }
{
    let polarity = read_polarity(words.next_word()?)?;
    read_cond(words, polarity)
}

/// `if` or `unless` and a condition up to the line's end, or nothing.
#[tactic(auto, unfolding(crate::specs::CondLines::optional_cond_at))]
pub fn read_optional_cond(words: &mut Words) -> Result<Option<UnresolvedCond>, LineError>
    ensures { Gives (λ cond. cond) result (optional_cond_at words.old) }
{
    let Some(word) = words.next_word_or_end()? else {
        return Ok(None);
    };
    let polarity = read_polarity(word)?;
    Ok(Some(read_cond(words, polarity)?))
}

/// The condition up to the line's end.
#[tactic(auto, unfolding(crate::specs::CondLines::cond_at))]
fn read_cond(words: &mut Words, polarity: Polarity) -> Result<UnresolvedCond, LineError>
    ensures { Gives (λ cond. cond) result (cond_at polarity words.old) }
{
    let cond = read_draft(words)?;
    cond.end(words.alloc(), polarity)
}

fn read_draft(words: &mut Words) -> Result<CondDraft, LineError>
    ensures { Gives (λ cond. cond) result (each_word cond_word no_cond words.old) }
{
    let mut cond = CondDraft::new(words.alloc());
    while let Some(word) = words.next_word_or_end()? {
        cond.take(words, word)?;
    }
    Ok(cond)
}

/// `if` or `unless`.
#[tactic(auto, unfolding(crate::specs::CondLines::polarity_in))]
fn read_polarity(word: &[u8]) -> Result<Polarity, Fault>
    ensures { result ≡ polarity_in word.now }
{
    if is(word, b"if") {
        return Ok(Polarity::If);
    }
    if is(word, b"unless") {
        return Ok(Polarity::Unless);
    }
    Err(Fault::UnknownWord)
}
