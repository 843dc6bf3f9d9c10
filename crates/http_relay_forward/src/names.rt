//! The names of the fields that the relay reads itself.

pub(crate) const CONNECTION: &[u8] = b"Connection";

pub(crate) const CONTENT_LENGTH: &[u8] = b"Content-Length";

pub(crate) const EXPECT: &[u8] = b"Expect";

pub(crate) const HOST: &[u8] = b"Host";

pub(crate) const TRANSFER_ENCODING: &[u8] = b"Transfer-Encoding";
