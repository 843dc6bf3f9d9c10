ghost use Rattle.std.specs.Prelude.{◌≡◌, ◌∷◌, IfOk};
ghost use Rattle.lb_script.specs.Lines.{asked_by, checked_in, kept_in, moment_in, plan_text_in, result_in, script_line, server_in};

use crate::ScriptLine;
use crate::commands::read_operator_line;
use crate::keyword::Keyword;
use crate::requests::read_request;
use crate::servers::find_server;
use crate::set_pins::{read_clear, read_set};
use crate::words::{at_end, is, only_word, read_number};
use lb_config::{BackendConfig, Config};
use lb_desk_model::Event;
use lb_types::{Moment, ServerId};
use lb_types_text::Parts;
use std::alloc::{AllocError, Global};

/// What the line, which is given without its end, asks for; none if it is of no form. The backend is the one that the script
/// is for.
///
/// One walk over the line, and for each server that it names one over the backend's. Memory is taken for the bytes of a key, for the
/// list of the servers that a request names, and for the reading of an operator's command. The only error is out of memory.
#[tactic(auto, unfolding(crate::specs::Lines::script_line))]
pub fn read_line(
    alloc: Global,
    config: &Config,
    backend: &BackendConfig,
    line: &[u8],
) -> Result<Option<ScriptLine>, AllocError>
    ensures { IfOk result (λ said. said ≡ script_line config.now backend.now line.now) }
{
    if line.is_empty() {
        return Ok(Some(ScriptLine::Blank));
    }
    let mut words = Parts::new(line, b' ');
    let Some(first) = words.next_part() else {
        return Ok(None);
    };
    let Some(keyword) = Keyword::read(first) else {
        return read_operator_line(alloc, config, line);
    };
    let said = read_behind(alloc, backend, keyword, &mut words)?;
    // An operator's command begins with `set` too, and no line is both.
    if said.is_none() && keyword == Keyword::Set {
        return read_operator_line(alloc, config, line);
    }
    Ok(said)
}

/// What the words after the keyword ask for.
#[tactic(auto, unfolding(crate::specs::Lines::asked_by))]
fn read_behind(
    alloc: Global,
    backend: &BackendConfig,
    keyword: Keyword,
    words: &mut Parts,
) -> Result<Option<ScriptLine>, AllocError>
    ensures { IfOk result (λ said. said ≡ asked_by backend.now keyword words.old) }
{
    Ok(match keyword {
        Keyword::Serve => read_request(alloc, backend, words)?
            .map(Event::Serve)
            .map(ScriptLine::Event),
        Keyword::Set => read_set(alloc, backend, words)?
            .map(Event::Set)
            .map(ScriptLine::Event),
        Keyword::Clear => read_clear(alloc, backend, words)?
            .map(Event::Clear)
            .map(ScriptLine::Event),
        Keyword::Open => read_server(backend, words)
            .map(Event::Open)
            .map(ScriptLine::Event),
        Keyword::Close => read_server(backend, words)
            .map(Event::Close)
            .map(ScriptLine::Event),
        Keyword::Expire => read_moment(words).map(Event::Expire).map(ScriptLine::Event),
        Keyword::Check => read_check(backend, words).map(|(server, succeeded)| ScriptLine::Event(
            Event::Check(server, succeeded),
        )),
        Keyword::Snapshot => at_end(ScriptLine::Snapshot, words),
        Keyword::Install => read_kept(words).map(ScriptLine::Install),
        Keyword::Plan => at_end(ScriptLine::PlanNow, words),
        Keyword::PlanText => read_plan_text(words),
    })
}

/// A server alone.
fn read_server(backend: &BackendConfig, words: &mut Parts) -> Option<ServerId>
    ensures { result ≡ server_in backend.now words.old }
{
    find_server(backend.servers(), only_word(words)?)
}

/// A moment alone.
fn read_moment(words: &mut Parts) -> Option<Moment>
    ensures { result ≡ moment_in words.old }
{
    read_number(only_word(words)?).map(Moment::from_millis)
}

/// A server, and whether its check succeeded.
#[tactic(auto, unfolding(crate::specs::Lines::checked_in))]
fn read_check(backend: &BackendConfig, words: &mut Parts) -> Option<(ServerId, bool)>
    ensures { result ≡ checked_in backend.now words.old }
{
    let server = words.next_part()?;
    let succeeded = only_word(words)?;
    Some((
        find_server(backend.servers(), server)?,
        read_result(succeeded)?,
    ))
}

/// How a check ended: whether it succeeded.
#[tactic(auto, unfolding(crate::specs::Lines::result_in))]
fn read_result(word: &[u8]) -> Option<bool>
    ensures { result ≡ result_in word.now }
{
    if is(word, b"ok") {
        return Some(true);
    }
    if is(word, b"fail") {
        return Some(false);
    }
    None
}

/// The number of a sheet that was kept, alone.
fn read_kept(words: &mut Parts) -> Option<u64>
    ensures { result ≡ kept_in words.old }
{
    match read_number(only_word(words)?)? {
        0 => None,
        number => Some(number),
    }
}

/// The version of a plan's text, alone.
fn read_plan_text(words: &mut Parts) -> Option<ScriptLine>
    ensures { result ≡ plan_text_in words.old }
{
    let version = only_word(words)?;
    if is(version, b"1") || is(version, b"2") {
        return Some(ScriptLine::PlanText);
    }
    None
}
