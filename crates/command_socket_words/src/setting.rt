ghost use Rattle.std.specs.Prelude.{◌≡◌};
ghost use Rattle.command_socket_words.specs.Settings.{admin_in, health_in, weight_in, setting_of};

use crate::CommandFault;
use crate::values::read_number;
use crate::words::{Words, is};
use server_state::{AdminState, Setting};

/// The admin state that the word is.
#[tactic(auto, unfolding(crate::specs::Settings::admin_in))]
fn read_admin(word: &[u8]) -> Result<Setting, CommandFault>
    ensures { result ≡ admin_in word.now }
{
    if is(word, b"ready") {
        return Ok(Setting::Admin(AdminState::Ready));
    }
    if is(word, b"drain") {
        return Ok(Setting::Admin(AdminState::Drain));
    }
    if is(word, b"maint") {
        return Ok(Setting::Admin(AdminState::Maint));
    }
    Err(CommandFault::UnknownCommand)
}

/// The health that the word is, `up` or `down`.
#[tactic(auto, unfolding(crate::specs::Settings::health_in))]
fn read_health(word: &[u8]) -> Result<Setting, CommandFault>
    ensures { result ≡ health_in word.now }
{
    if is(word, b"up") {
        return Ok(Setting::Health(true));
    }
    if is(word, b"down") {
        return Ok(Setting::Health(false));
    }
    Err(CommandFault::UnknownCommand)
}

/// The weight that the word's decimal digits say.
#[tactic(auto, unfolding(crate::specs::Settings::weight_in))]
fn read_weight(word: &[u8]) -> Result<Setting, CommandFault>
    ensures { result ≡ weight_in word.now }
{
    let weight = read_number(word)?;
    Ok(Setting::Weight(weight))
}

/// What follows `set server b/s`.
#[tactic(auto, unfolding(crate::specs::Settings::setting_of, crate::specs::Words::last))]
pub(crate) fn read_setting(words: &mut Words) -> Result<Setting, CommandFault>
    ensures { result ≡ setting_of words.old }
{
    let kind = words.due_word()?;
    let setting = if is(kind, b"state") {
        read_admin(words.due_word()?)?
    } else if is(kind, b"health") {
        read_health(words.due_word()?)?
    } else if is(kind, b"weight") {
        read_weight(words.due_word()?)?
    } else {
        return Err(CommandFault::UnknownCommand);
    };
    words.end()?;
    Ok(setting)
}
