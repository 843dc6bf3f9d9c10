ghost use Rattle.std.specs.Prelude.{◌≡◌, ◌≤◌, length};
ghost use Rattle.http_relay_head.specs.Scans.{Scans};

use httparse::spans::{HeaderSpan, RequestSpans, parse_request};
use httparse::{Error, Status};

/// The most bytes that a head may have, empty lines before it included.
pub const HEAD_ROOM: usize = 16384;

/// The most fields that a head may have.
pub(crate) const MOST_FIELDS: usize = 100;

/// What the bytes that were read so far say.
#[derive(Clone, Copy, Debug, PartialEq, Eq)]
pub(crate) enum Scanned {
    /// They begin with a head, whose parts are there.
    Head(RequestSpans),
    /// They are less than a head.
    Unfinished,
    /// Whatever follows, the head is beyond the limits.
    TooLarge,
    /// Whatever follows, it is no head.
    Bad,
}

/// Scans the first bytes of a request. It costs one walk over them.
pub(crate) fn scan(bytes: &[u8], headers: &mut [HeaderSpan]) -> Scanned
    requires bytes { length bytes.now ≤ HEAD_ROOM }
    requires headers { length headers.old ≡ MOST_FIELDS }
    ensures { Scans bytes.now headers.new result }
{
    match parse_request(bytes, headers) {
        Ok(Status::Complete(spans)) => Scanned::Head(spans),
        Ok(Status::Partial) => {
            if bytes.len() < HEAD_ROOM {
                Scanned::Unfinished
            } else {
                Scanned::TooLarge
            }
        }
        Err(Error::TooManyHeaders) => Scanned::TooLarge,
        Err(_) => Scanned::Bad,
    }
}
