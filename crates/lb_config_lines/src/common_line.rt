ghost use Rattle.lb_config_arguments.specs.Faults.{Gives};
ghost use Rattle.lb_config_lines.specs.Lines.{timeout_at, option_setting_at, other_option, option_at, stats_behind, stats_at, common_statement_at, other_statement, common_line_at};

use crate::{IgnoredWords, Setting, Statement};
use lb_config_arguments::{Fault, LineError, Words, is};
use lb_config_keywords::{
    CommonKeyword, OptionName, Section, Timeout, is_ignored, is_ignored_option, is_ignored_timeout,
    is_left_out, read_bare_end, read_http_check, read_last_time, read_stats_socket, read_tuning,
};

/// How many connections may be served at a time, of all `bind` lines together (`tune.relays`).
pub const MAX_RELAYS: u64 = 64;

/// How many plans may be tried while the table changes (`tune.tries`).
pub const MAX_TRIES: u64 = 1000;

/// How many events a journal may keep (`tune.journal`).
pub const MAX_JOURNAL: u64 = 1_000_000;

/// A line whose first word is none of a proxy's own.
#[tactic(auto, unfolding(crate::specs::Lines::common_line_at))]
pub(crate) fn read_common_line(
    section: Section,
    word: &[u8],
    words: &mut Words,
) -> Result<Statement, LineError>
    ensures { Gives (λ statement. statement) result (common_line_at section word.now words.old) }
{
    let Some(keyword) = CommonKeyword::named(word) else {
        return read_other(words, word);
    };
    if !keyword.stands_in(section) {
        return Err(Fault::UnknownWord.into());
    }
    read_common_statement(keyword, section, words)
}

#[tactic(auto, unfolding(crate::specs::Lines::other_statement))]
fn read_other(words: &Words, word: &[u8]) -> Result<Statement, LineError>
    ensures { Gives (λ statement. statement) result (other_statement word.now) }
{
    if is_left_out(word) {
        return Err(Fault::LeftOut(words.copied(word)?).into());
    }
    if is_ignored(word) {
        return Ok(Statement::Ignored(IgnoredWords::First));
    }
    Err(Fault::UnknownWord.into())
}

#[tactic(auto, unfolding(crate::specs::Lines::common_statement_at))]
fn read_common_statement(
    keyword: CommonKeyword,
    section: Section,
    words: &mut Words,
) -> Result<Statement, LineError>
    ensures { Gives (λ statement. statement) result (common_statement_at keyword section words.old) }
{
    let setting = match keyword {
        CommonKeyword::Timeout => return read_timeout(section, words),
        CommonKeyword::Option => return read_option(section, words),
        CommonKeyword::Stats => return read_stats(section, words),
        CommonKeyword::Relays => Setting::Relays(read_tuning(1, MAX_RELAYS, words)? as u8),
        CommonKeyword::Tries => Setting::Tries(read_tuning(1, MAX_TRIES, words)? as u16),
        CommonKeyword::Journal => Setting::Journal(read_tuning(1, MAX_JOURNAL, words)? as u32),
    };
    Ok(Statement::Setting(setting))
}

/// The words after `timeout`.
#[tactic(auto, unfolding(crate::specs::Lines::timeout_at))]
fn read_timeout(section: Section, words: &mut Words) -> Result<Statement, LineError>
    ensures { Gives (λ statement. statement) result (timeout_at section words.old) }
{
    let word = words.next_word()?;
    let Some(kind) = Timeout::named(word) else {
        if is_ignored_timeout(word) {
            return Ok(Statement::Ignored(IgnoredWords::FirstTwo));
        }
        return Err(Fault::UnknownWord.into());
    };
    if !kind.stands_in(section) {
        return Err(Fault::UnknownWord.into());
    }
    let millis = read_last_time(words)?;
    Ok(Statement::Setting(Setting::Timeout(kind, millis)))
}

/// The words after `option`.
#[tactic(auto, unfolding(crate::specs::Lines::option_at))]
fn read_option(section: Section, words: &mut Words) -> Result<Statement, LineError>
    ensures { Gives (λ statement. statement) result (option_at section words.old) }
{
    let word = words.next_word()?;
    let Some(name) = OptionName::named(word) else {
        return read_other_option(words, word);
    };
    if !name.stands_in(section) {
        return Err(Fault::UnknownWord.into());
    }
    Ok(Statement::Setting(read_option_setting(name, words)?))
}

#[tactic(auto, unfolding(crate::specs::Lines::option_setting_at))]
fn read_option_setting(name: OptionName, words: &mut Words) -> Result<Setting, LineError>
    ensures { Gives (λ setting. setting) result (option_setting_at name words.old) }
{
    match name {
        OptionName::HttpCheck => Ok(Setting::HttpCheck(read_http_check(words)?)),
        OptionName::AllBackups => {
            words.end()?;
            Ok(Setting::AllBackups)
        }
        OptionName::Evacuate => {
            words.end()?;
            Ok(Setting::Evacuate)
        }
        OptionName::ForwardFor => {
            read_bare_end(words)?;
            Ok(Setting::ForwardFor)
        }
    }
}

#[tactic(auto, unfolding(crate::specs::Lines::other_option))]
fn read_other_option(words: &Words, word: &[u8]) -> Result<Statement, LineError>
    ensures { Gives (λ statement. statement) result (other_option word.now) }
{
    if is_ignored_option(word) {
        return Ok(Statement::Ignored(IgnoredWords::FirstTwo));
    }
    if is(word, b"tcp-check") {
        return Err(Fault::LeftOut(words.copied(word)?).into());
    }
    Err(Fault::UnknownWord.into())
}

/// The words after `stats`.
#[tactic(auto, unfolding(crate::specs::Lines::stats_at))]
fn read_stats(section: Section, words: &mut Words) -> Result<Statement, LineError>
    ensures { Gives (λ statement. statement) result (stats_at section words.old) }
{
    let word = words.next_word()?;
    read_behind_stats(section, word, words)
}

#[tactic(auto, unfolding(crate::specs::Lines::stats_behind))]
fn read_behind_stats(
    section: Section,
    word: &[u8],
    words: &mut Words,
) -> Result<Statement, LineError>
    ensures { Gives (λ statement. statement) result (stats_behind section word.now words.old) }
{
    if is(word, b"socket") {
        if !section.is_global() {
            return Err(Fault::UnknownWord.into());
        }
        return Ok(Statement::Setting(Setting::StatsSocket(read_stats_socket(words)?)));
    }
    if is(word, b"timeout") {
        return Ok(Statement::Ignored(IgnoredWords::FirstTwo));
    }
    Err(Fault::LeftOut(words.copied(word)?).into())
}
