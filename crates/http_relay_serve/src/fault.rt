use http_relay_head::HeadFault;
use http_relay_talk::VisitFault;
use lb_desk_ports::Refused;
use std::alloc::AllocError;
use thiserror::Error;

/// Why a backend gave a request no server.
#[derive(Clone, Copy, Debug, PartialEq, Eq, Error)]
pub enum AskFault {
    /// The port refused the request.
    #[error("the backend refused the request")]
    Refused(Refused),
    /// 80: there is no server for it.
    #[error("there is no server for the request")]
    NoServer,
    /// 10: a rule names a server that the backend doesn't have.
    #[error("a rule names a server that does not exist")]
    NoSuchServer,
    /// The port named a server that the configuration doesn't have.
    #[error("the server is not one of the configuration")]
    UnknownServer,
}

/// Why a request with a good head was not relayed by its backend.
#[derive(Clone, Copy, Debug, PartialEq, Eq, Error)]
pub enum BackendFault {
    /// There was no memory for the request or for the head that the server gets. Nothing was asked.
    #[error("out of memory")]
    Memory,
    /// The backend gave no server.
    #[error("the backend gave no server")]
    Ask(AskFault),
    /// The visit of the server did not come to its end.
    #[error("the visit of the server failed")]
    Visit(VisitFault),
}

/// Why a request was not relayed.
#[derive(Clone, Copy, Debug, PartialEq, Eq, Error)]
pub enum ServeFault {
    /// No head was read.
    #[error("no head was read")]
    Head(HeadFault),
    /// No backend takes the head.
    #[error("no backend takes the head")]
    NoBackend,
    /// Its backend did not relay it.
    #[error("the backend did not relay it")]
    Backend(BackendFault),
}

impl From<AllocError> for BackendFault {
    ghost use Rattle.std.specs.Prelude.{◌≡◌};
    ghost use Rattle.http_relay_serve.specs.declared.fault.BackendFault.TheVariants.{Memory};

    ghost from_gives = { λ _ fault. fault ≡ Memory };

    fn from(_: AllocError) -> Self {
        BackendFault::Memory
    }
}
