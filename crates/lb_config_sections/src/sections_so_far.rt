ghost use Rattle.std.specs.Prelude.{◌≡◌, IfOk, OnOk};
ghost use Rattle.std.specs.Option.{option_map};
ghost use Rattle.lb_config_sections.specs.Causes.{Gives};
ghost use Rattle.lb_config_sections.specs.SectionsSoFar.{no_lines, declared_behind, statement_of, with_statement, with_header, with_warning, with_line_setting, section_kind, has_ignored_words, all_sections, take_line};

use crate::cause::{limit_cause, line_cause};
use crate::{ConfigFault, ConfigSection, LocatedFault, Warning};
use lb_config_arguments::LineError;
use lb_config_limits::{Declarations, LimitError};
use lb_config_lines::{Header, IgnoredWords, Section, Setting, Statement, read_line};
use lb_config_words::Line;
use std::alloc::{AllocError, Global};
use std::marker::Model;

/// A configuration as far as it was read.
#[derive(Drop)]
pub(crate) struct SectionsSoFar {
    declarations: Declarations,
    finished: Vec<ConfigSection>,
    /// The section to which the next line belongs, once one has begun.
    current: Option<ConfigSection>,
    warnings: Vec<Warning>,
}

impl Model for SectionsSoFar {
    ghost use Rattle.lb_config_sections.specs.SectionsSoFarView.{SectionsSoFarView};

    ghost Value = { SectionsSoFarView };

    ghost view = { λ draft. record {
      declared = draft.declarations;
      finished = draft.finished.items;
      current = draft.current;
      warnings = draft.warnings.items;
    } };
}

impl SectionsSoFar {
    /// Before the first line. Allocates nothing.
    pub(crate) fn new(alloc: Global) -> Self
        ensures { result ≡ no_lines }
    {
        SectionsSoFar {
            declarations: Declarations::new(alloc),
            finished: Vec::new(alloc),
            current: None,
            warnings: Vec::new(alloc),
        }
    }

    /// Takes the next line, unless it has a fault.
    #[tactic(auto, unfolding(crate::specs::SectionsSoFar::take_line))]
    pub(crate) fn take_line(&mut self, alloc: Global, line: &Line) -> Result<(), ConfigFault>
        ensures { Gives (λ _. self.new) result (take_line self.old line.now) }
    {
        self.declare(alloc, line)?;
        let statement = self.read_statement(alloc, line)?;
        self.take_statement(alloc, line, statement)?;
        Ok(())
    }

    /// Refuses a line that may not follow the lines before it.
    #[tactic(auto, unfolding(crate::specs::SectionsSoFar::declared_behind))]
    fn declare(&mut self, alloc: Global, line: &Line) -> Result<(), ConfigFault>
        ensures { Gives (λ _. self.new) result (declared_behind self.old line.now) }
    {
        match self.declarations.take(line.words()) {
            Ok(()) => Ok(()),
            Err(LimitError::Memory) => Err(ConfigFault::Memory),
            Err(LimitError::Fault(fault)) => Err(ConfigFault::Fault(LocatedFault {
                line: line.number(),
                cause: limit_cause(alloc, fault)?,
            })),
        }
    }

    /// What the line says in the section.
    #[tactic(auto, unfolding(crate::specs::SectionsSoFar::statement_of))]
    fn read_statement(&self, alloc: Global, line: &Line) -> Result<Statement, ConfigFault>
        ensures { Gives (λ statement. statement) result (statement_of self.now line.now) }
    {
        match read_line(alloc, self.section_kind(), line.words(), line.ending()) {
            Ok(statement) => Ok(statement),
            Err(LineError::Memory) => Err(ConfigFault::Memory),
            Err(LineError::Fault(fault)) => Err(ConfigFault::Fault(LocatedFault {
                line: line.number(),
                cause: line_cause(fault),
            })),
        }
    }

    /// The kind of the section to which the next line belongs.
    fn section_kind(&self) -> Option<Section>
        ensures { result ≡ section_kind self.now.current }
    {
        match &self.current {
            Some(section) => Some(section.header().section),
            None => None,
        }
    }

    #[tactic(auto, unfolding(crate::specs::SectionsSoFar::with_statement))]
    fn take_statement(
        &mut self,
        alloc: Global,
        line: &Line,
        statement: Statement,
    ) -> Result<(), AllocError>
        ensures { OnOk result (self.new ≡ with_statement self.old line.now statement) }
    {
        match statement {
            Statement::Header(header) => self.begin(alloc, header),
            Statement::Ignored(which) => self.warn(alloc, which, line),
            Statement::Setting(setting) => {
                if has_ignored_words(&setting) {
                    self.warn(alloc, IgnoredWords::FirstTwo, line)?;
                }
                self.set(line.number(), setting)
            }
        }
    }

    /// Begins a section.
    fn begin(&mut self, alloc: Global, header: Header) -> Result<(), AllocError>
        ensures { OnOk result (self.new ≡ with_header self.old header) }
    {
        if let Some(section) = self.current.replace(ConfigSection::begun(alloc, header)) {
            self.finished.push(section)?;
        }
        Ok(())
    }

    fn warn(&mut self, alloc: Global, which: IgnoredWords, line: &Line) -> Result<(), AllocError>
        ensures { OnOk result (self.new ≡ with_warning self.old which line.now) }
    {
        let warning = Warning::new(alloc, which, line)?;
        self.warnings.push(warning)?;
        Ok(())
    }

    fn set(&mut self, line: u32, setting: Setting) -> Result<(), AllocError>
        ensures { OnOk result (self.new ≡ with_line_setting self.old line setting) }
    {
        match &mut self.current {
            Some(section) => section.push(line, setting),
            None => Ok(()),
        }
    }

    /// The sections and the warnings.
    pub(crate) fn into_parts(self) -> Result<(Vec<ConfigSection>, Vec<Warning>), AllocError>
        ensures { IfOk result (λ two. (two.0.items ≡ all_sections self) × (two.1.items ≡ self.warnings)) }
    {
        let SectionsSoFar {
            declarations: _,
            finished,
            current,
            warnings,
        } = self;
        let mut sections = finished;
        if let Some(section) = current {
            sections.push(section)?;
        }
        Ok((sections, warnings))
    }
}

/// Whether words follow the setting that are ignored.
fn has_ignored_words(setting: &Setting) -> bool
    ensures { result ≡ has_ignored_words setting.now }
{
    match setting {
        Setting::StatsSocket(socket) => socket.has_more,
        _ => false,
    }
}
