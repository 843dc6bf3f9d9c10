use crate::Setting;
use lb_config_keywords::Section;
use lb_types::Name;

/// A line that begins a section.
#[derive(Clone, Copy, Debug)]
pub struct Header {
    /// The kind of the section.
    pub section: Section,
    /// Its name: `global` has none, `defaults` may have one, the others have one.
    pub name: Option<Name>,
}

/// What the warning of a line that is ignored names.
#[derive(Clone, Copy, Debug, PartialEq, Eq)]
pub enum IgnoredWords {
    /// The line's first word.
    First,
    /// The line's first two words.
    FirstTwo,
}

/// What a line says.
#[derive(Debug, Drop)]
pub enum Statement {
    /// It begins a section.
    Header(Header),
    /// It sets something in its section.
    Setting(Setting),
    /// It is ignored with a warning.
    Ignored(IgnoredWords),
}
