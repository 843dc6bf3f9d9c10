ghost use Rattle.std.specs.Prelude.{◌≡◌};
ghost use Rattle.std.specs.Str.{bytes_eq};
ghost use Rattle.lb_config_limits.specs.Kinds.{kind_of, keyword_kind, section_kind, rule_kind, stick_kind, name_in};

use lb_config_words::Word;
use lb_types::Name;

/// What a line declares, by its first word, and `stick on` by its first two.
#[derive(Clone, Copy, Debug, PartialEq, Eq)]
pub(crate) enum Kind {
    /// A section `global` or `defaults`.
    Section,
    /// A section `frontend`.
    Frontend,
    /// A section `backend`.
    Backend,
    /// A section `listen`, which is a frontend and a backend.
    Listen,
    /// A server.
    Server,
    /// A line of an ACL.
    Acl,
    /// A rule: `use_backend`, `use-server` or `pin-cost`.
    Rule,
    /// `stick on`.
    StickOn,
}

impl Kind {
    /// What the line declares, if anything that is counted.
    #[tactic(auto, unfolding(crate::specs::Kinds::kind_of))]
    pub(crate) fn of(words: &[Word]) -> Option<Kind>
        ensures { result ≡ kind_of words.now }
    {
        let (first, rest) = words.split_first()?;
        let word = first.as_bytes();
        section_kind(word)
            .or(keyword_kind(word))
            .or(rule_kind(word))
            .or(stick_kind(word, rest))
    }
}

#[tactic(auto, unfolding(crate::specs::Kinds::section_kind))]
fn section_kind(word: &[u8]) -> Option<Kind>
    ensures { result ≡ section_kind word.now }
{
    if is(word, b"global") {
        Some(Kind::Section)
    } else if is(word, b"defaults") {
        Some(Kind::Section)
    } else if is(word, b"frontend") {
        Some(Kind::Frontend)
    } else if is(word, b"backend") {
        Some(Kind::Backend)
    } else if is(word, b"listen") {
        Some(Kind::Listen)
    } else {
        None
    }
}

#[tactic(auto, unfolding(crate::specs::Kinds::keyword_kind))]
fn keyword_kind(word: &[u8]) -> Option<Kind>
    ensures { result ≡ keyword_kind word.now }
{
    if is(word, b"server") {
        Some(Kind::Server)
    } else if is(word, b"acl") {
        Some(Kind::Acl)
    } else {
        None
    }
}

#[tactic(auto, unfolding(crate::specs::Kinds::rule_kind))]
fn rule_kind(word: &[u8]) -> Option<Kind>
    ensures { result ≡ rule_kind word.now }
{
    if is(word, b"use_backend") {
        Some(Kind::Rule)
    } else if is(word, b"use-server") {
        Some(Kind::Rule)
    } else if is(word, b"pin-cost") {
        Some(Kind::Rule)
    } else {
        None
    }
}

/// `stick on`, by the line's first word and the words after it.
///
/// A line `stick` of another kind has a fault of its own, which `lb_config_lines` reports.
#[tactic(auto, unfolding(crate::specs::Kinds::stick_kind))]
fn stick_kind(word: &[u8], rest: &[Word]) -> Option<Kind>
    ensures { result ≡ stick_kind word.now rest.now }
{
    let (second, _) = rest.split_first()?;
    if is(word, b"stick") && is(second.as_bytes(), b"on") {
        Some(Kind::StickOn)
    } else {
        None
    }
}

fn is(word: &[u8], wanted: &[u8]) -> bool
    ensures { result ≡ bytes_eq word.now wanted.now }
{
    *word == *wanted
}

/// The name after the line's first word, if one stands there.
#[tactic(auto, unfolding(crate::specs::Kinds::name_in))]
pub(crate) fn name_in(words: &[Word]) -> Option<Name>
    ensures { result ≡ name_in words.now }
{
    let (_, rest) = words.split_first()?;
    let (name, _) = rest.split_first()?;
    Name::read(name.as_bytes()).ok()
}
