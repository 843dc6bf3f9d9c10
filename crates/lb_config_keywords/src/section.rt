ghost use Rattle.std.specs.Prelude.{◌≡◌};
ghost use Rattle.lb_config_keywords.specs.Sections.{section_of, is_proxy, is_front, is_back, is_defaults, is_global};

use lb_config_arguments::is;

/// A kind of section.
#[derive(Clone, Copy, Debug, PartialEq, Eq)]
pub enum Section {
    /// `global`.
    Global,
    /// `defaults`.
    Defaults,
    /// `frontend`.
    Frontend,
    /// `backend`.
    Backend,
    /// `listen`.
    Listen,
}

impl Section {
    /// The section that the word begins.
    #[tactic(auto, unfolding(crate::specs::Sections::section_of))]
    pub fn named(word: &[u8]) -> Option<Section>
        ensures { result ≡ section_of word.now }
    {
        if is(word, b"global") {
            Some(Section::Global)
        } else if is(word, b"defaults") {
            Some(Section::Defaults)
        } else if is(word, b"frontend") {
            Some(Section::Frontend)
        } else if is(word, b"backend") {
            Some(Section::Backend)
        } else if is(word, b"listen") {
            Some(Section::Listen)
        } else {
            None
        }
    }

    /// Whether it is any but `global`.
    pub fn is_proxy(self) -> bool
        ensures { result ≡ is_proxy self }
    {
        !self.is_global()
    }

    /// Whether clients reach it.
    pub fn is_front(self) -> bool
        ensures { result ≡ is_front self }
    {
        match self {
            Section::Frontend | Section::Listen => true,
            _ => false,
        }
    }

    /// Whether it has servers.
    pub fn is_back(self) -> bool
        ensures { result ≡ is_back self }
    {
        match self {
            Section::Backend | Section::Listen => true,
            _ => false,
        }
    }

    /// Whether it is `defaults`.
    pub fn is_defaults(self) -> bool
        ensures { result ≡ is_defaults self }
    {
        match self {
            Section::Defaults => true,
            _ => false,
        }
    }

    /// Whether it is `global`.
    pub fn is_global(self) -> bool
        ensures { result ≡ is_global self }
    {
        match self {
            Section::Global => true,
            _ => false,
        }
    }
}
