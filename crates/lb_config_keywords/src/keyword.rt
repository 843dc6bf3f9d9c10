ghost use Rattle.std.specs.Prelude.{◌≡◌};
ghost use Rattle.lb_config_keywords.specs.Keywords.{proxy_keyword, proxy_stands_in, server_keyword, server_stands_in, common_keyword, common_stands_in};

use crate::Section;
use lb_config_arguments::is;

/// A keyword of a proxy's requests.
#[derive(Clone, Copy, Debug, PartialEq, Eq)]
pub enum ProxyKeyword {
    /// `mode`.
    Mode,
    /// `balance`.
    Balance,
    /// `bind`.
    Bind,
    /// `acl`.
    Acl,
    /// `use_backend`.
    UseBackend,
    /// `default_backend`.
    DefaultBackend,
}

impl ProxyKeyword {
    /// The keyword that the word is.
    #[tactic(auto, unfolding(crate::specs::Keywords::proxy_keyword))]
    pub fn named(word: &[u8]) -> Option<ProxyKeyword>
        ensures { result ≡ proxy_keyword word.now }
    {
        if is(word, b"mode") {
            Some(ProxyKeyword::Mode)
        } else if is(word, b"balance") {
            Some(ProxyKeyword::Balance)
        } else if is(word, b"bind") {
            Some(ProxyKeyword::Bind)
        } else if is(word, b"acl") {
            Some(ProxyKeyword::Acl)
        } else if is(word, b"use_backend") {
            Some(ProxyKeyword::UseBackend)
        } else if is(word, b"default_backend") {
            Some(ProxyKeyword::DefaultBackend)
        } else {
            None
        }
    }

    /// Whether the section has it.
    pub fn stands_in(self, section: Section) -> bool
        ensures { result ≡ proxy_stands_in self section }
    {
        match self {
            ProxyKeyword::Mode => section.is_proxy(),
            ProxyKeyword::Balance => section.is_back() || section.is_defaults(),
            ProxyKeyword::Bind | ProxyKeyword::UseBackend => section.is_front(),
            ProxyKeyword::Acl => section.is_front() || section.is_back(),
            ProxyKeyword::DefaultBackend => section.is_front() || section.is_defaults(),
        }
    }
}

/// A keyword of a proxy's servers and pins.
#[derive(Clone, Copy, Debug, PartialEq, Eq)]
pub enum ServerKeyword {
    /// `server`.
    Server,
    /// `default-server`.
    DefaultServer,
    /// `stick-table`.
    StickTable,
    /// `stick`.
    Stick,
    /// `use-server`.
    UseServer,
    /// `pin-cost`.
    PinCost,
}

impl ServerKeyword {
    /// The keyword that the word is.
    #[tactic(auto, unfolding(crate::specs::Keywords::server_keyword))]
    pub fn named(word: &[u8]) -> Option<ServerKeyword>
        ensures { result ≡ server_keyword word.now }
    {
        if is(word, b"server") {
            Some(ServerKeyword::Server)
        } else if is(word, b"default-server") {
            Some(ServerKeyword::DefaultServer)
        } else if is(word, b"stick-table") {
            Some(ServerKeyword::StickTable)
        } else if is(word, b"stick") {
            Some(ServerKeyword::Stick)
        } else if is(word, b"use-server") {
            Some(ServerKeyword::UseServer)
        } else if is(word, b"pin-cost") {
            Some(ServerKeyword::PinCost)
        } else {
            None
        }
    }

    /// Whether the section has it.
    pub fn stands_in(self, section: Section) -> bool
        ensures { result ≡ server_stands_in self section }
    {
        match self {
            ServerKeyword::DefaultServer => section.is_back() || section.is_defaults(),
            _ => section.is_back(),
        }
    }
}

/// A keyword of several kinds of lines, or of the whole program.
#[derive(Clone, Copy, Debug, PartialEq, Eq)]
pub enum CommonKeyword {
    /// `timeout`.
    Timeout,
    /// `option`.
    Option,
    /// `stats`.
    Stats,
    /// `tune.relays`.
    Relays,
    /// `tune.tries`.
    Tries,
    /// `tune.journal`.
    Journal,
}

impl CommonKeyword {
    /// The keyword that the word is.
    #[tactic(auto, unfolding(crate::specs::Keywords::common_keyword))]
    pub fn named(word: &[u8]) -> Option<CommonKeyword>
        ensures { result ≡ common_keyword word.now }
    {
        if is(word, b"timeout") {
            Some(CommonKeyword::Timeout)
        } else if is(word, b"option") {
            Some(CommonKeyword::Option)
        } else if is(word, b"stats") {
            Some(CommonKeyword::Stats)
        } else if is(word, b"tune.relays") {
            Some(CommonKeyword::Relays)
        } else if is(word, b"tune.tries") {
            Some(CommonKeyword::Tries)
        } else if is(word, b"tune.journal") {
            Some(CommonKeyword::Journal)
        } else {
            None
        }
    }

    /// Whether the section has it. What follows `timeout`, `option` and `stats` is asked for itself.
    pub fn stands_in(self, section: Section) -> bool
        ensures { result ≡ common_stands_in self section }
    {
        match self {
            CommonKeyword::Timeout | CommonKeyword::Option | CommonKeyword::Stats => true,
            _ => section.is_global(),
        }
    }
}
