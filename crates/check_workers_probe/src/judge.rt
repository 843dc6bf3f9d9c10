ghost use Rattle.std.specs.Prelude.{◌≤◌, length};
ghost use Rattle.check_workers_probe.specs.Probes.{Judges};

use httparse::Status;
use httparse::spans::{EMPTY_HEADER_SPAN, parse_response};

/// The most bytes that a response's head may have.
pub(crate) const MOST_BYTES: usize = 16384;

/// The most fields that a response's head may have.
const MOST_FIELDS: usize = 100;

/// What the bytes that were read so far say.
#[derive(Clone, Copy, Debug, PartialEq, Eq)]
pub(crate) enum Verdict {
    /// They begin with the head of a success.
    Success,
    /// They don't, whatever follows.
    Failure,
    /// They don't yet.
    Unfinished,
}

/// Judges the first bytes of a response. It costs one walk over them.
pub(crate) fn judge(bytes: &[u8]) -> Verdict
    requires { length bytes.now ≤ MOST_BYTES }
    ensures { Judges MOST_BYTES bytes.now result }
{
    let mut spans = [EMPTY_HEADER_SPAN; MOST_FIELDS];
    match parse_response(bytes, &mut spans) {
        Ok(Status::Complete(head)) if head.code >= 200 && head.code < 400 => Verdict::Success,
        Ok(Status::Partial) if bytes.len() < MOST_BYTES => Verdict::Unfinished,
        _ => Verdict::Failure,
    }
}
