ghost use Rattle.std.specs.Prelude.{◌≡◌};
ghost use Rattle.lb_config_keywords.specs.SecondWords.{timeout_of, timeout_stands_in, is_ignored_timeout, option_of, option_stands_in, is_ignored_option};

use crate::Section;
use lb_config_arguments::is;

/// What a time limits.
#[derive(Clone, Copy, Debug, PartialEq, Eq)]
pub enum Timeout {
    /// `client`: one read from a client.
    Client,
    /// `connect`: a dial.
    Connect,
    /// `server`: one read from a server.
    Server,
    /// `queue`: how long a request waits for a connection.
    Queue,
    /// `check`: one whole probe.
    Check,
}

impl Timeout {
    /// The timeout of this name.
    #[tactic(auto, unfolding(crate::specs::SecondWords::timeout_of))]
    pub fn named(word: &[u8]) -> Option<Timeout>
        ensures { result ≡ timeout_of word.now }
    {
        if is(word, b"client") {
            Some(Timeout::Client)
        } else if is(word, b"connect") {
            Some(Timeout::Connect)
        } else if is(word, b"server") {
            Some(Timeout::Server)
        } else if is(word, b"queue") {
            Some(Timeout::Queue)
        } else if is(word, b"check") {
            Some(Timeout::Check)
        } else {
            None
        }
    }

    /// Whether the section has it.
    pub fn stands_in(self, section: Section) -> bool
        ensures { result ≡ timeout_stands_in self section }
    {
        match self {
            Timeout::Client => section.is_front() || section.is_defaults(),
            _ => section.is_back() || section.is_defaults(),
        }
    }
}

/// An option that has a meaning here.
#[derive(Clone, Copy, Debug, PartialEq, Eq)]
pub enum OptionName {
    /// `httpchk`.
    HttpCheck,
    /// `allbackups`.
    AllBackups,
    /// `evacuate`.
    Evacuate,
    /// `forwardfor`.
    ForwardFor,
}

impl OptionName {
    /// The option of this name.
    #[tactic(auto, unfolding(crate::specs::SecondWords::option_of))]
    pub fn named(word: &[u8]) -> Option<OptionName>
        ensures { result ≡ option_of word.now }
    {
        if is(word, b"httpchk") {
            Some(OptionName::HttpCheck)
        } else if is(word, b"allbackups") {
            Some(OptionName::AllBackups)
        } else if is(word, b"evacuate") {
            Some(OptionName::Evacuate)
        } else if is(word, b"forwardfor") {
            Some(OptionName::ForwardFor)
        } else {
            None
        }
    }

    /// Whether the section has it.
    pub fn stands_in(self, section: Section) -> bool
        ensures { result ≡ option_stands_in self section }
    {
        match self {
            OptionName::ForwardFor => section.is_proxy(),
            _ => section.is_back() || section.is_defaults(),
        }
    }
}

/// Whether the timeout of this name is ignored.
#[tactic(auto, unfolding(crate::specs::SecondWords::is_ignored_timeout))]
pub fn is_ignored_timeout(word: &[u8]) -> bool
    ensures { result ≡ is_ignored_timeout word.now }
{
    is(word, b"http-request")
        || is(word, b"http-keep-alive")
        || is(word, b"tunnel")
        || is(word, b"client-fin")
        || is(word, b"server-fin")
}

/// Whether the option of this name is ignored.
#[tactic(auto, unfolding(crate::specs::SecondWords::is_ignored_option))]
pub fn is_ignored_option(word: &[u8]) -> bool
    ensures { result ≡ is_ignored_option word.now }
{
    is(word, b"httplog")
        || is(word, b"dontlognull")
        || is(word, b"redispatch")
        || is(word, b"http-server-close")
        || is(word, b"http-keep-alive")
        || is(word, b"log-health-checks")
        || is(word, b"httpclose")
}
