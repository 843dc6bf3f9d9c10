ghost use Rattle.std.specs.Prelude.{◌≡◌, ◌++◌, ◌∷◌, OnOk};
ghost use Rattle.lb_config_sections.specs.SectionView.{begun, with_setting};

use lb_config_lines::{Header, Setting};
use std::alloc::{AllocError, Global};
use std::marker::Model;

/// A setting, and where it stands.
#[derive(Debug, Drop)]
pub struct NumberedSetting {
    /// The number of its line, counted from 1.
    pub line: u32,
    /// What the line sets.
    pub setting: Setting,
}

/// A section: its first line, and what the lines after it set. As a value it is both.
#[derive(Debug, Drop)]
pub struct ConfigSection {
    header: Header,
    settings: Vec<NumberedSetting>,
}

impl Model for ConfigSection {
    ghost use Rattle.lb_config_sections.specs.SectionView.{SectionView};

    ghost Value = { SectionView };

    ghost view = { λ section. record { header = section.header; settings = section.settings.items } };
}

impl ConfigSection {
    /// A section of which the first line alone was read.
    pub(crate) fn begun(alloc: Global, header: Header) -> Self
        ensures { result ≡ begun header }
    {
        ConfigSection {
            header,
            settings: Vec::new(alloc),
        }
    }

    /// Appends a setting to the others.
    pub(crate) fn push(&mut self, line: u32, setting: Setting) -> Result<(), AllocError>
        ensures { OnOk result (self.new ≡ with_setting self.old line setting) }
    {
        self.settings.push(NumberedSetting { line, setting })?;
        Ok(())
    }

    /// The section's kind and name.
    pub fn header(&self) -> &Header
        ensures { result.now ≡ self.now.header }
    {
        &self.header
    }

    /// What its lines set, in their order.
    pub fn settings(&self) -> &[NumberedSetting]
        ensures { result.now ≡ self.now.settings }
    {
        &self.settings
    }

    /// What its lines set, given away.
    pub fn into_settings(self) -> Vec<NumberedSetting>
        ensures { result.items ≡ self.settings }
    {
        self.settings
    }
}
