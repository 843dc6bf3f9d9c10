ghost use Rattle.std.specs.Prelude.{◌≡◌, ◌++◌, IfOk, OnOk};
ghost use Rattle.std.specs.List.{list_any};
ghost use Rattle.std.specs.Option.{option_to_list};
ghost use Rattle.lb_config_sections.specs.Names.{gathered, setting_name, acl_name, server_name, backend_name, is_table_setting, has_name, names_in};

use crate::{ConfigSection, NumberedSetting};
use lb_config_lines::{Section, Setting};
use lb_types::Name;
use std::alloc::{AllocError, Global};
use std::marker::Model;

/// What a section declares by name.
#[derive(Clone, Copy, Debug)]
pub(crate) enum Declared {
    /// ACLs.
    Acls,
    /// Servers.
    Servers,
}

/// The names that a section's lines may use, and whether it has a table.
#[derive(Drop)]
pub(crate) struct SectionNames {
    acls: Vec<Name>,
    servers: Vec<Name>,
    has_table: bool,
}

impl Model for SectionNames {
    ghost use Rattle.lb_config_sections.specs.SectionNamesView.{SectionNamesView};

    ghost Value = { SectionNamesView };

    ghost view = { λ names. record {
      acls = names.acls.items;
      servers = names.servers.items;
      has_table = names.has_table;
    } };
}

impl SectionNames {
    /// The names that the settings declare.
    pub(crate) fn of(alloc: Global, settings: &[NumberedSetting]) -> Result<Self, AllocError>
        ensures { IfOk result (λ names. names ≡ names_in settings.now) }
    {
        Ok(SectionNames {
            acls: declared_names(alloc, Declared::Acls, settings)?,
            servers: declared_names(alloc, Declared::Servers, settings)?,
            has_table: has_table(settings),
        })
    }

    pub(crate) fn acls(&self) -> &[Name]
        ensures { result.now ≡ self.now.acls }
    {
        &self.acls
    }

    pub(crate) fn servers(&self) -> &[Name]
        ensures { result.now ≡ self.now.servers }
    {
        &self.servers
    }

    pub(crate) fn has_table(&self) -> bool
        ensures { result ≡ self.now.has_table }
    {
        self.has_table
    }
}

/// Whether the name is among the names.
pub(crate) fn has_name(names: &[Name], name: &Name) -> bool
    ensures { result ≡ has_name names.now name.now }
{
    names
        .iter()
        .any(|other| other.as_bytes() == name.as_bytes())
}

/// Whether one of the settings is a table.
fn has_table(settings: &[NumberedSetting]) -> bool
    ensures { result ≡ list_any (λ numbered. is_table_setting numbered.setting) settings.now }
{
    settings.iter().any(|numbered| is_table(&numbered.setting))
}

fn is_table(setting: &Setting) -> bool
    ensures { result ≡ is_table_setting setting.now }
{
    match setting {
        Setting::StickTable(_) => true,
        _ => false,
    }
}

/// The names of this kind that the settings declare, in their order.
fn declared_names(
    alloc: Global,
    declared: Declared,
    settings: &[NumberedSetting],
) -> Result<Vec<Name>, AllocError>
    ensures { IfOk result (λ names. names.items ≡ gathered (λ numbered. setting_name declared numbered.setting) settings.now) }
{
    let mut names = Vec::new(alloc);
    for numbered in settings {
        push_found(&mut names, setting_name(declared, &numbered.setting))?;
    }
    Ok(names)
}

/// The name of this kind that the setting declares.
fn setting_name(declared: Declared, setting: &Setting) -> Option<Name>
    ensures { result ≡ setting_name declared setting.now }
{
    match declared {
        Declared::Acls => acl_name(setting),
        Declared::Servers => server_name(setting),
    }
}

fn acl_name(setting: &Setting) -> Option<Name>
    ensures { result ≡ acl_name setting.now }
{
    match setting {
        Setting::Acl(declaration) => Some(declaration.name),
        _ => None,
    }
}

fn server_name(setting: &Setting) -> Option<Name>
    ensures { result ≡ server_name setting.now }
{
    match setting {
        Setting::Server(server) => Some(server.name),
        _ => None,
    }
}

/// The names of all backends, in their order.
pub(crate) fn backend_names(
    alloc: Global,
    sections: &[ConfigSection],
) -> Result<Vec<Name>, AllocError>
    ensures { IfOk result (λ names. names.items ≡ gathered backend_name sections.now) }
{
    let mut names = Vec::new(alloc);
    for section in sections {
        push_found(&mut names, backend_name(section))?;
    }
    Ok(names)
}

/// The section's name, if the section is a backend.
fn backend_name(section: &ConfigSection) -> Option<Name>
    ensures { result ≡ backend_name section.now }
{
    let header = section.header();
    match header.section {
        Section::Backend | Section::Listen => header.name,
        _ => None,
    }
}

fn push_found(names: &mut Vec<Name>, name: Option<Name>) -> Result<(), AllocError>
    ensures { OnOk result (names.new.items ≡ names.old.items ++ option_to_list name) }
{
    if let Some(name) = name {
        names.push(name)?;
    }
    Ok(())
}
