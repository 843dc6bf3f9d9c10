ghost use Rattle.std.specs.Prelude.{◌≡◌};
ghost use Rattle.lb_config_arguments.specs.Faults.{Gives};
ghost use Rattle.lb_config_keywords.specs.Sections.{is_one_of};
ghost use Rattle.lb_config_keywords.specs.SettingLines.{left_out_balances, is_left_out_balance, balance_in, balance_at};

use lb_config_arguments::{Fault, LineError, Words, is};
use lb_types::Balance;

/// The words after `balance`.
#[tactic(auto, unfolding(crate::specs::SettingLines::balance_at))]
pub fn read_balance(words: &mut Words) -> Result<Balance, LineError>
    ensures { Gives (λ balance. balance) result (balance_at words.old) }
{
    let word = words.next_word()?;
    let balance = balance_named(words, word)?;
    words.end()?;
    Ok(balance)
}

#[tactic(auto, unfolding(crate::specs::SettingLines::balance_in))]
fn balance_named(words: &Words, word: &[u8]) -> Result<Balance, LineError>
    ensures { Gives (λ balance. balance) result (balance_in word.now) }
{
    if is(word, b"roundrobin") {
        return Ok(Balance::RoundRobin);
    }
    if is(word, b"leastconn") {
        return Ok(Balance::LeastConnections);
    }
    if is(word, b"first") {
        return Ok(Balance::First);
    }
    if is_left_out_balance(word) {
        return Err(Fault::LeftOut(words.copied(word)?).into());
    }
    Err(Fault::UnknownWord.into())
}

#[tactic(auto, unfolding(crate::specs::SettingLines::is_left_out_balance))]
fn is_left_out_balance(word: &[u8]) -> bool
    ensures { result ≡ is_left_out_balance word.now }
{
    is_left_out_name(word) || word.starts_with(b"hdr(") || word.starts_with(b"random(")
}

fn is_left_out_name(word: &[u8]) -> bool
    ensures { result ≡ is_one_of left_out_balances word.now }
{
    is(word, b"source")
        || is(word, b"uri")
        || is(word, b"hdr")
        || is(word, b"random")
        || is(word, b"static-rr")
}
