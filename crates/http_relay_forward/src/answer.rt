ghost use Rattle.std.specs.Prelude.{◌≡◌};
ghost use Rattle.http_relay_forward.specs.Answers.{status, answer_text, continue_text};

/// An answer that the relay gives by itself. Its text is a constant, so giving it allocates nothing.
#[derive(Clone, Copy, Debug, PartialEq, Eq, Hash)]
pub enum OwnAnswer {
    /// 400: the head or the body is not one that a server may see, or was cut short.
    BadRequest,
    /// 408: the client took too long with its head.
    RequestTimeout,
    /// 500: memory ran out, or the backend is exhausted.
    InternalServerError,
    /// 502: the server broke off before it answered.
    BadGateway,
    /// 503: no server, or none with room or within reach.
    ServiceUnavailable,
    /// 504: the server took too long to answer.
    GatewayTimeout,
}

impl OwnAnswer {
    /// The status.
    pub fn status(self) -> u16
        ensures { result ≡ status self }
    {
        match self {
            OwnAnswer::BadRequest => 400,
            OwnAnswer::RequestTimeout => 408,
            OwnAnswer::InternalServerError => 500,
            OwnAnswer::BadGateway => 502,
            OwnAnswer::ServiceUnavailable => 503,
            OwnAnswer::GatewayTimeout => 504,
        }
    }

    /// The whole answer.
    pub fn text(self) -> &'static [u8]
        ensures { result.now ≡ answer_text self }
    {
        match self {
            OwnAnswer::BadRequest => BAD_REQUEST,
            OwnAnswer::RequestTimeout => REQUEST_TIMEOUT,
            OwnAnswer::InternalServerError => INTERNAL_SERVER_ERROR,
            OwnAnswer::BadGateway => BAD_GATEWAY,
            OwnAnswer::ServiceUnavailable => SERVICE_UNAVAILABLE,
            OwnAnswer::GatewayTimeout => GATEWAY_TIMEOUT,
        }
    }
}

/// The text of `100 Continue`, after which a client sends its body.
pub fn continue_text() -> &'static [u8]
    ensures { result.now ≡ continue_text }
{
    b"HTTP/1.1 100 Continue\r\n\r\n"
}

const BAD_REQUEST: &[u8] =
    b"HTTP/1.1 400 Bad Request\r\nContent-Length: 0\r\nConnection: close\r\n\r\n";

const REQUEST_TIMEOUT: &[u8] =
    b"HTTP/1.1 408 Request Timeout\r\nContent-Length: 0\r\nConnection: close\r\n\r\n";

const INTERNAL_SERVER_ERROR: &[u8] =
    b"HTTP/1.1 500 Internal Server Error\r\nContent-Length: 0\r\nConnection: close\r\n\r\n";

const BAD_GATEWAY: &[u8] =
    b"HTTP/1.1 502 Bad Gateway\r\nContent-Length: 0\r\nConnection: close\r\n\r\n";

const SERVICE_UNAVAILABLE: &[u8] =
    b"HTTP/1.1 503 Service Unavailable\r\nContent-Length: 0\r\nConnection: close\r\n\r\n";

const GATEWAY_TIMEOUT: &[u8] =
    b"HTTP/1.1 504 Gateway Timeout\r\nContent-Length: 0\r\nConnection: close\r\n\r\n";
