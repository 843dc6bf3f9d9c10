ghost use Rattle.lb_config_arguments.specs.Faults.{Gives, Takes};
ghost use Rattle.lb_config_lines.specs.Lines.{section_name_at, header_at, line_at, statement_in, proxy_setting_at, server_setting_at, section_line_at, server_line_at};

use crate::common_line::read_common_line;
use crate::stick::read_stick;
use crate::{Header, Setting, Statement};
use lb_config_arguments::{Fault, LineError, Words, is, read_name};
use lb_config_conditions::{read_backend_rule, read_cost_rule, read_declaration, read_server_rule};
use lb_config_keywords::{
    ProxyKeyword, Section, ServerKeyword, is_left_out_section, read_balance, read_bind,
    read_default_backend, read_mode,
};
use lb_config_parameters::{read_default_server, read_server, read_stick_table};
use lb_config_words::{SpellingFault, Word};
use lb_types::Name;
use std::alloc::Global;

/// What the words of a line say in the section, or before any section, or the line's first fault from the left. `ending` is why
/// the line's spelling breaks off after the words.
///
/// Names of backends, servers and ACLs are not looked up, and nothing is compared with other lines.
#[tactic(auto, unfolding(crate::specs::Lines::statement_in))]
pub fn read_line(
    alloc: Global,
    section: Option<Section>,
    words: &[Word],
    ending: Option<SpellingFault>,
) -> Result<Statement, LineError>
    ensures { Gives (λ statement. statement) result (statement_in section words.now ending) }
{
    read_statement(section, &mut Words::new(alloc, words, ending))
}

#[tactic(auto, unfolding(crate::specs::Lines::line_at))]
fn read_statement(section: Option<Section>, words: &mut Words) -> Result<Statement, LineError>
    ensures { Gives (λ statement. statement) result (line_at section words.old) }
{
    let word = words.next_word()?;
    if let Some(begun) = Section::named(word) {
        return Ok(Statement::Header(read_header(begun, words)?));
    }
    if is_left_out_section(word) {
        return Err(Fault::LeftOut(words.copied(word)?).into());
    }
    match section {
        Some(section) => read_section_line(section, word, words),
        None => Err(Fault::UnknownSection.into()),
    }
}

/// The words after a section's word.
#[tactic(auto, unfolding(crate::specs::Lines::header_at))]
fn read_header(section: Section, words: &mut Words) -> Result<Header, LineError>
    ensures { Gives (λ header. header) result (header_at section words.old) }
{
    let name = read_section_name(section, words)?;
    let Some(word) = words.next_word_or_end()? else {
        return Ok(Header { section, name });
    };
    if is(word, b"from") {
        return Err(Fault::LeftOut(words.copied(word)?).into());
    }
    Err(Fault::UnknownWord.into())
}

#[tactic(auto, unfolding(crate::specs::Lines::section_name_at))]
fn read_section_name(section: Section, words: &mut Words) -> Result<Option<Name>, LineError>
    ensures { Takes (λ name. name) result words.new (section_name_at section words.old) }
{
    match section {
        Section::Global => Ok(None),
        Section::Defaults => match words.next_word_or_end()? {
            Some(word) => Ok(Some(read_name(word)?)),
            None => Ok(None),
        },
        _ => Ok(Some(words.next_name()?)),
    }
}

/// The line of a section that begins with the word.
#[tactic(auto, unfolding(crate::specs::Lines::section_line_at))]
fn read_section_line(
    section: Section,
    word: &[u8],
    words: &mut Words,
) -> Result<Statement, LineError>
    ensures { Gives (λ statement. statement) result (section_line_at section word.now words.old) }
{
    let Some(keyword) = ProxyKeyword::named(word) else {
        return read_server_line(section, word, words);
    };
    if !keyword.stands_in(section) {
        return Err(Fault::UnknownWord.into());
    }
    Ok(Statement::Setting(read_proxy_setting(keyword, words)?))
}

#[tactic(auto, unfolding(crate::specs::Lines::server_line_at))]
fn read_server_line(
    section: Section,
    word: &[u8],
    words: &mut Words,
) -> Result<Statement, LineError>
    ensures { Gives (λ statement. statement) result (server_line_at section word.now words.old) }
{
    let Some(keyword) = ServerKeyword::named(word) else {
        return read_common_line(section, word, words);
    };
    if !keyword.stands_in(section) {
        return Err(Fault::UnknownWord.into());
    }
    Ok(Statement::Setting(read_server_setting(keyword, words)?))
}

/// The words after a keyword of requests.
#[tactic(auto, unfolding(crate::specs::Lines::proxy_setting_at))]
fn read_proxy_setting(keyword: ProxyKeyword, words: &mut Words) -> Result<Setting, LineError>
    ensures { Gives (λ setting. setting) result (proxy_setting_at keyword words.old) }
{
    match keyword {
        ProxyKeyword::Mode => {
            read_mode(words)?;
            Ok(Setting::HttpMode)
        }
        ProxyKeyword::Balance => Ok(Setting::Balance(read_balance(words)?)),
        ProxyKeyword::Bind => Ok(Setting::Bind(read_bind(words)?)),
        ProxyKeyword::Acl => Ok(Setting::Acl(read_declaration(words)?)),
        ProxyKeyword::UseBackend => Ok(Setting::UseBackend(read_backend_rule(words)?)),
        ProxyKeyword::DefaultBackend => Ok(Setting::DefaultBackend(read_default_backend(words)?)),
    }
}

/// The words after a keyword of servers and pins.
#[tactic(auto, unfolding(crate::specs::Lines::server_setting_at))]
fn read_server_setting(keyword: ServerKeyword, words: &mut Words) -> Result<Setting, LineError>
    ensures { Gives (λ setting. setting) result (server_setting_at keyword words.old) }
{
    match keyword {
        ServerKeyword::Server => Ok(Setting::Server(read_server(words)?)),
        ServerKeyword::DefaultServer => Ok(Setting::DefaultServer(read_default_server(words)?)),
        ServerKeyword::StickTable => Ok(Setting::StickTable(read_stick_table(words)?)),
        ServerKeyword::Stick => Ok(Setting::StickOn(read_stick(words)?)),
        ServerKeyword::UseServer => Ok(Setting::UseServer(read_server_rule(words)?)),
        ServerKeyword::PinCost => Ok(Setting::PinCost(read_cost_rule(words)?)),
    }
}
