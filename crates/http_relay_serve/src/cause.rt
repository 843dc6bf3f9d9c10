ghost use Rattle.std.specs.Prelude.{◌≡◌};
ghost use Rattle.http_relay_serve.specs.Causes.{answer_of};

use http_relay_forward::OwnAnswer;
use http_relay_wire::WireFault;
use lb_desk_ports::Refused;

/// Why the relay answers a request by itself. `specs/Causes.antt` says how, with the public sources.
#[derive(Clone, Copy, Debug, PartialEq, Eq)]
pub enum Cause {
    /// The head has more bytes or more fields than one may have.
    HeadTooLarge,
    /// What the client sent is no head, or one that no server may see.
    BadHead,
    /// The head gives the length of its body in two ways.
    BothLengths,
    /// The client ended inside its head.
    HeadCutShort,
    /// The client ended inside its body.
    BodyCutShort,
    /// The body is not made of chunks within the limits.
    BadChunk,
    /// The client took too long with its head.
    HeadTimedOut,
    /// There was no memory for the parts of the head.
    HeadMemory,
    /// There was no memory for the request or for the head that the server gets.
    RequestMemory,
    /// The backend refused the request.
    RequestRefused(Refused),
    /// A rule names a server that the backend doesn't have.
    NoSuchServer,
    /// The backend named a server that its configuration doesn't have.
    UnknownServer,
    /// The backend refused to open a connection.
    OpenRefused(Refused),
    /// The server didn't take the head.
    HeadNotTaken(WireFault),
    /// The server didn't take the body.
    BodyNotTaken(WireFault),
    /// The server ended with no byte of a response.
    NoResponse,
    /// The server's wire broke with no byte of a response.
    ResponseBroken,
    /// No backend takes the head.
    NoBackend,
    /// The backend has no server for the request.
    NoServer,
    /// The server doesn't serve.
    NotServing,
    /// The server was full until the wait for it was over.
    QueueOver,
    /// The server couldn't be dialled.
    NotDialled(WireFault),
    /// The server took too long, and sent no byte of a response.
    ResponseTimedOut,
}

impl Cause {
    /// The answer that the client gets.
    pub fn answer(self) -> OwnAnswer
        ensures { result ≡ answer_of self }
    {
        match self {
            Cause::HeadTooLarge
            | Cause::BadHead
            | Cause::BothLengths
            | Cause::HeadCutShort
            | Cause::BodyCutShort
            | Cause::BadChunk => OwnAnswer::BadRequest,
            Cause::HeadTimedOut => OwnAnswer::RequestTimeout,
            Cause::HeadMemory
            | Cause::RequestMemory
            | Cause::RequestRefused(_)
            | Cause::NoSuchServer
            | Cause::UnknownServer
            | Cause::OpenRefused(_) => OwnAnswer::InternalServerError,
            Cause::HeadNotTaken(_)
            | Cause::BodyNotTaken(_)
            | Cause::NoResponse
            | Cause::ResponseBroken => OwnAnswer::BadGateway,
            Cause::NoBackend
            | Cause::NoServer
            | Cause::NotServing
            | Cause::QueueOver
            | Cause::NotDialled(_) => OwnAnswer::ServiceUnavailable,
            Cause::ResponseTimedOut => OwnAnswer::GatewayTimeout,
        }
    }
}
