use http_relay_body::{BodyFault, CopyFault};
use http_relay_wire::WireFault;
use thiserror::Error;

/// Why a request was not sent to its end.
#[derive(Clone, Copy, Debug, PartialEq, Eq, Error)]
pub enum SendFault {
    /// `100 Continue` couldn't be sent to the client.
    #[error("the client's wire failed before the body")]
    Continue(WireFault),
    /// The head couldn't be written to the server.
    #[error("the server's wire failed in the head")]
    Head(WireFault),
    /// The body was not sent to its end.
    #[error("the body was not sent to its end")]
    Body(BodyFault),
}

/// Why an exchange did not come to its end.
#[derive(Clone, Copy, Debug, PartialEq, Eq, Error)]
pub enum ExchangeFault {
    /// The request was not sent to its end. Nothing of a response went to the client.
    #[error("the request was not sent to its end")]
    Send(SendFault),
    /// The response was not copied to its end.
    #[error("the response was not copied to its end")]
    Copy(CopyFault),
}
