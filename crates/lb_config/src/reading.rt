ghost use Rattle.std.specs.Prelude.{◌≡◌, IfOk};
ghost use Rattle.std.specs.Option.{option_copied};
ghost use Rattle.lb_config_sections.specs.Causes.{Gives};
ghost use Rattle.lb_config_valid.specs.Valid.{AreValid};
ghost use Rattle.lb_config.specs.Configs.{config_in, config_of, globals_of, with_global_section};

use crate::Config;
use crate::names::backend_names;
use crate::proxies_so_far::read_proxies;
use crate::proxy::Basis;
use lb_config_lines::{Section, SocketAddress};
use lb_config_sections::{ConfigFault, ConfigSection, Sections, read_checked};
use lb_config_valid::checked_sections_are_valid;
use lb_config_values::GlobalValues;
use lb_config_words::Word;
use std::alloc::{AllocError, Global};

/// The configuration that the text is, or its first fault, as `lb_config_sections::read_checked` reports it.
///
/// Cost: a few walks over the lines, and of each backend its servers against each other. The lines of ACLs and the words of
/// `option httpchk` are kept once for all that share them.
#[tactic(auto, unfolding(crate::specs::Configs::config_in))]
pub fn read_config(alloc: Global, text: &[u8]) -> Result<Config, ConfigFault>
    ensures { Gives (λ config. config) result (config_in text.now) }
{
    let sections = read_checked(alloc, text)?;
    checked_sections_are_valid();
    Ok(config_of(alloc, sections)?)
}

#[tactic(auto, unfolding(crate::specs::Configs::config_of))]
fn config_of(alloc: Global, sections: Sections) -> Result<Config, AllocError>
    requires { AreValid sections.sections }
    ensures { IfOk result (λ config. config ≡ config_of sections) }
{
    let (sections, warnings) = sections.into_lists();
    let globals = globals_of(&sections);
    let (relays, tries, journal) = (globals.relays(), globals.tries(), globals.journal());
    let socket = copied_address(alloc, globals.socket())?;
    let backends = backend_names(alloc, &sections)?;
    let basis = Basis { backends, journal };
    let (frontends, backends) = read_proxies(alloc, &basis, sections)?;
    Ok(Config {
        relays,
        tries,
        socket,
        frontends,
        backends,
        warnings,
    })
}

/// What the sections `global` say.
fn globals_of(sections: &[ConfigSection]) -> GlobalValues<'_>
    ensures { result ≡ globals_of sections.now }
{
    let mut globals = GlobalValues::none();
    for section in sections {
        globals = with_global_section(globals, section);
    }
    globals
}

fn with_global_section<'a>(
    globals: GlobalValues<'a>,
    section: &'a ConfigSection,
) -> GlobalValues<'a>
    ensures { result ≡ with_global_section globals.entry section.now.header.section section.now.settings }
{
    match section.header().section {
        Section::Global => globals.behind(section.settings()),
        _ => globals,
    }
}

fn copied_address(
    alloc: Global,
    address: Option<&SocketAddress>,
) -> Result<Option<SocketAddress>, AllocError>
    ensures { IfOk result (λ copy. copy ≡ option_copied address.entry) }
{
    match address {
        None => Ok(None),
        Some(SocketAddress::Tcp(endpoint)) => Ok(Some(SocketAddress::Tcp(*endpoint))),
        Some(SocketAddress::Path(path)) => {
            let bytes = Vec::from_slice(alloc, path.as_bytes())?;
            Ok(Some(SocketAddress::Path(Word::new(bytes))))
        }
    }
}
