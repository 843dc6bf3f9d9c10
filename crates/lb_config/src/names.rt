ghost use Rattle.std.specs.Prelude.{◌≡◌, ◌++◌, IfOk, OnOk, map};
ghost use Rattle.std.specs.List.{filter_map};
ghost use Rattle.std.specs.Option.{option_to_list};
ghost use Rattle.lb_config_sections.specs.Names.{backend_name};

use lb_config_lines::Section;
use lb_config_sections::ConfigSection;
use lb_config_values::ServerConfig;
use lb_types::Name;
use std::alloc::{AllocError, Global};

/// The names of all backends, in their order.
pub(crate) fn backend_names(
    alloc: Global,
    sections: &[ConfigSection],
) -> Result<Vec<Name>, AllocError>
    ensures { IfOk result (λ names. names.items ≡ filter_map backend_name sections.now) }
{
    let mut names = Vec::new(alloc);
    for section in sections {
        push_found(&mut names, backend_name(section))?;
    }
    Ok(names)
}

fn push_found(names: &mut Vec<Name>, name: Option<Name>) -> Result<(), AllocError>
    ensures { OnOk result (names.new.items ≡ names.old.items ++ option_to_list name) }
{
    if let Some(name) = name {
        names.push(name)?;
    }
    Ok(())
}

/// The section's name, if the section is a backend.
fn backend_name(section: &ConfigSection) -> Option<Name>
    ensures { result ≡ backend_name section.now }
{
    let header = section.header();
    match header.section {
        Section::Backend | Section::Listen => header.name,
        _ => None,
    }
}

/// The names of the servers, in their order.
pub(crate) fn server_names(alloc: Global, servers: &[ServerConfig]) -> Result<Vec<Name>, AllocError>
    ensures { IfOk result (λ names. names.items ≡ map (λ server. server.name) servers.now) }
{
    servers.iter().map(|server| server.name()).collect(alloc)
}
