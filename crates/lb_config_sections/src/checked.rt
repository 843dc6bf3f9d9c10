ghost use Rattle.std.specs.Prelude.{◌≡◌, IfOk};
ghost use Rattle.lb_config_sections.specs.References.{section_fault, sections_fault, reference_fault, checked_in};
ghost use Rattle.lb_config_sections.specs.Causes.{Gives};

use crate::names::{SectionNames, backend_names};
use crate::setting_references::settings_fault;
use crate::{ConfigFault, ConfigSection, LocatedFault, Sections, read_text};
use lb_types::Name;
use std::alloc::{AllocError, Global};

/// The sections of a configuration's text and the warnings of its lines, or its first fault.
///
/// The first fault of a line counts, as `read_text` reports it. If no line has one, the first line counts that names a backend, a
/// server of its section or an ACL of its section that none declares (27), or that has a `stick on` in a section without a table
/// (23). What is overridden or is in `defaults` is looked up all the same.
#[tactic(auto, unfolding(crate::specs::References::checked_in))]
pub fn read_checked(alloc: Global, text: &[u8]) -> Result<Sections, ConfigFault>
    ensures { Gives (λ sections. sections) result (checked_in text.now) }
{
    let sections = read_text(alloc, text)?;
    match reference_fault(alloc, sections.sections())? {
        Some(fault) => Err(ConfigFault::Fault(fault)),
        None => Ok(sections),
    }
}

/// The first reference to nothing.
#[tactic(auto, unfolding(crate::specs::References::reference_fault))]
fn reference_fault(
    alloc: Global,
    sections: &[ConfigSection],
) -> Result<Option<LocatedFault>, AllocError>
    ensures { IfOk result (λ fault. fault ≡ reference_fault sections.now) }
{
    let backends = backend_names(alloc, sections)?;
    sections_fault(alloc, &backends, sections)
}

fn sections_fault(
    alloc: Global,
    backends: &[Name],
    sections: &[ConfigSection],
) -> Result<Option<LocatedFault>, AllocError>
    ensures { IfOk result (λ fault. fault ≡ sections_fault backends.now sections.now) }
{
    for section in sections {
        if let Some(fault) = section_fault(alloc, backends, section)? {
            return Ok(Some(fault));
        }
    }
    Ok(None)
}

/// The first reference to nothing in the section.
fn section_fault(
    alloc: Global,
    backends: &[Name],
    section: &ConfigSection,
) -> Result<Option<LocatedFault>, AllocError>
    ensures { IfOk result (λ fault. fault ≡ section_fault backends.now section.now) }
{
    let names = SectionNames::of(alloc, section.settings())?;
    Ok(settings_fault(backends, &names, section.settings()))
}
