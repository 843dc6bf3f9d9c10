use http_relay_exchange::ExchangeFault;
use http_relay_wire::WireFault;
use lb_desk_ports::Refused;
use thiserror::Error;

/// Why a talk with a server did not come to its end.
#[derive(Clone, Copy, Debug, PartialEq, Eq, Error)]
pub enum TalkFault {
    /// The server couldn't be dialled.
    #[error("the server could not be dialled")]
    Dial(WireFault),
    /// The exchange did not come to its end.
    #[error("the exchange did not come to its end")]
    Exchange(ExchangeFault),
}

/// Why a visit of a server did not come to its end.
#[derive(Clone, Copy, Debug, PartialEq, Eq, Error)]
pub enum VisitFault {
    /// The port refused the request for a connection.
    #[error("no connection was opened")]
    Refused(Refused),
    /// The server doesn't serve.
    #[error("the server does not serve")]
    NotServing,
    /// The server was full until the wait was over.
    #[error("the server was full")]
    QueueOver,
    /// The talk with the server did not come to its end.
    #[error("the talk with the server failed")]
    Talk(TalkFault),
}
