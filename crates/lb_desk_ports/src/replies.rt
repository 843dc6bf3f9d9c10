ghost use Rattle.std.specs.Prelude.{◌≡◌};
ghost use Rattle.lb_desk_ports.specs.Ports.{asked_reply, pinning_reply, opening_reply, shut_reply, filed_reply};
ghost use Rattle.lb_desk_ports.specs.Movers.{installing_reply};

use lb_desk_model::{PinnedAs, Refusal, Reply, ServedAs};
use lb_types::ServerId;
use pin_set::Score;
use server_state::Checked;

/// What a backend answers to a request for a server.
#[derive(Clone, Copy, Debug, PartialEq, Eq, Hash)]
pub enum Asked {
    /// This server, in this way.
    Served(ServerId, ServedAs),
    /// 80: there is no server for the request.
    NoServer,
    /// 10: a rule names a server that the backend doesn't have.
    NoSuchServer,
}

/// What a backend answers to a pin that is to stand at a server.
#[derive(Clone, Copy, Debug, PartialEq, Eq, Hash)]
pub enum Pinning {
    /// The pin stands there.
    Pinned(PinnedAs),
    /// The backend has no table of pins.
    NoTable,
    /// 10: the pin's server, or one that it wants, isn't of the backend.
    NoSuchServer,
    /// 60: the table is full, and keeps its pins.
    TableFull,
}

/// What a backend answers to a request for a connection.
#[derive(Clone, Copy, Debug, PartialEq, Eq, Hash)]
pub enum Opening<S> {
    /// The connection is open until this slot is given back.
    Opened(S),
    /// 30: as many are open as the server's `maxconn` says.
    Full,
    /// 31: the server doesn't serve.
    NotServing,
}

/// What a backend answers to the end of a connection.
#[derive(Clone, Copy, Debug, PartialEq, Eq, Hash)]
pub enum Shut {
    /// One fewer is open.
    Closed,
    /// 32: none was open.
    NotOpen,
}

/// What a backend answers to the result of a check.
#[derive(Clone, Copy, Debug, PartialEq, Eq, Hash)]
pub enum Filed {
    /// This became of it.
    Checked(Checked),
    /// 10: there is no such server.
    NoSuchServer,
    /// 12: the server isn't checked.
    NotChecked,
}

/// What a backend answers to a plan for a sheet that it gave. It never answers 71 to one, since no such plan fails the check.
#[derive(Clone, Copy, Debug, PartialEq, Eq)]
pub enum Installing {
    /// The plan's moves are made, and this is their score.
    Installed(Score),
    /// 70: the plan is for another version of the table.
    Stale,
}

impl Asked {
    /// The answer as the journal records it.
    pub fn reply(&self) -> Reply
        ensures { result ≡ asked_reply self.now }
    {
        match self {
            Asked::Served(server, how) => Reply::Served(*server, *how),
            Asked::NoServer => Reply::Refused(Refusal::NoServer),
            Asked::NoSuchServer => Reply::Refused(Refusal::NoSuchServer),
        }
    }
}

impl Pinning {
    /// The answer as the journal records it.
    pub fn reply(self) -> Reply
        ensures { result ≡ pinning_reply self }
    {
        match self {
            Pinning::Pinned(how) => Reply::Pinned(how),
            Pinning::NoTable => Reply::NoTable,
            Pinning::NoSuchServer => Reply::Refused(Refusal::NoSuchServer),
            Pinning::TableFull => Reply::Refused(Refusal::TableFull),
        }
    }
}

impl<S> Opening<S> {
    /// The answer as the journal records it.
    pub fn reply(&self) -> Reply
        ensures { result ≡ opening_reply self.now }
    {
        match self {
            Opening::Opened(_) => Reply::Opened,
            Opening::Full => Reply::Refused(Refusal::Full),
            Opening::NotServing => Reply::Refused(Refusal::NotServing),
        }
    }
}

impl Shut {
    /// The answer as the journal records it.
    pub fn reply(self) -> Reply
        ensures { result ≡ shut_reply self }
    {
        match self {
            Shut::Closed => Reply::Closed,
            Shut::NotOpen => Reply::Refused(Refusal::NotOpen),
        }
    }
}

impl Filed {
    /// The answer as the journal records it.
    pub fn reply(self) -> Reply
        ensures { result ≡ filed_reply self }
    {
        match self {
            Filed::Checked(checked) => Reply::Checked(checked),
            Filed::NoSuchServer => Reply::Refused(Refusal::NoSuchServer),
            Filed::NotChecked => Reply::Refused(Refusal::NotChecked),
        }
    }
}

impl Installing {
    /// The answer as the journal records it.
    pub fn reply(self) -> Reply
        ensures { result ≡ installing_reply self }
    {
        match self {
            Installing::Installed(score) => Reply::Installed(score),
            Installing::Stale => Reply::Refused(Refusal::Stale),
        }
    }
}
