ghost use Rattle.std.specs.Prelude.{◌≡◌};
ghost use Rattle.lb_config_sections.specs.Causes.{Gives};
ghost use Rattle.lb_config_sections.specs.SectionsSoFar.{lines_behind, no_lines, sections_of};

use crate::sections_so_far::SectionsSoFar;
use crate::{ConfigFault, ConfigSection, Warning};
use lb_config_words::Line;
use std::alloc::Global;
use std::marker::Model;

/// What the lines of a configuration say. As a value it is the lists of its sections and of its warnings.
#[derive(Debug, Drop)]
pub struct Sections {
    sections: Vec<ConfigSection>,
    warnings: Vec<Warning>,
}

impl Model for Sections {
    ghost use Rattle.lb_config_sections.specs.SectionsView.{SectionsView};

    ghost Value = { SectionsView };

    ghost view = { λ s. record { sections = s.sections.items; warnings = s.warnings.items } };
}

impl Sections {
    /// The sections in their order, `defaults` and `global` among them.
    pub fn sections(&self) -> &[ConfigSection]
        ensures { result.now ≡ self.now.sections }
    {
        &self.sections
    }

    /// The warnings in the order of their lines.
    pub fn warnings(&self) -> &[Warning]
        ensures { result.now ≡ self.now.warnings }
    {
        &self.warnings
    }

    /// The sections and the warnings, given away.
    pub fn into_lists(self) -> (Vec<ConfigSection>, Vec<Warning>)
        ensures sections { result.0.items ≡ self.sections }
        ensures warnings { result.1.items ≡ self.warnings }
    {
        (self.sections, self.warnings)
    }
}

/// The sections of a configuration and the warnings of its lines, or its first fault: by line, and in a line from the left.
///
/// One walk over the lines; the memory is that of the settings.
#[tactic(auto, unfolding(crate::specs::SectionsSoFar::sections_of))]
pub fn read_sections(alloc: Global, lines: &[Line]) -> Result<Sections, ConfigFault>
    ensures { Gives (λ sections. sections) result (sections_of lines.now) }
{
    let draft = read_draft(alloc, lines)?;
    let (sections, warnings) = draft.into_parts()?;
    Ok(Sections { sections, warnings })
}

fn read_draft(alloc: Global, lines: &[Line]) -> Result<SectionsSoFar, ConfigFault>
    ensures { Gives (λ draft. draft) result (lines_behind no_lines lines.now) }
{
    let mut draft = SectionsSoFar::new(alloc);
    for line in lines {
        draft.take_line(alloc, line)?;
    }
    Ok(draft)
}
