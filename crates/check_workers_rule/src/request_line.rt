ghost use Rattle.std.specs.Prelude.{◌≡◌, IfOk};
ghost use Rattle.check_workers_rule.specs.CheckRequests.{check_line};

use lb_acl::Version;
use std::alloc::{AllocError, Global};
use std::marker::Model;
use std::sync::Arc;

/// The request line of checks, as an `option httpchk` gives it. It may be about as long as the whole configuration, so it is made
/// once and shared.
#[derive(Debug, Drop)]
pub struct RequestLine {
    text: Arc<Vec<u8>>,
    version: Version,
}

impl Model for RequestLine {
    ghost use Rattle.std.specs.Arc.{arc_value};
    ghost use Rattle.check_workers_rule.specs.CheckRequests.{CheckLine};

    ghost Value = { CheckLine };

    ghost view = { λ line. record { text = (arc_value line.text).items; version = line.version } };
}

impl RequestLine {
    /// The line of this method, URI and version. The only error is out of memory.
    pub fn new(
        alloc: Global,
        method: &[u8],
        uri: &[u8],
        version: Version,
    ) -> Result<Self, AllocError>
        ensures { IfOk result (λ line. line ≡ check_line method.now uri.now version) }
    {
        let mut text = Vec::new(alloc);
        text.extend_from_slice(method)?;
        text.extend_from_slice(b" ")?;
        text.extend_from_slice(uri)?;
        text.extend_from_slice(match version {
            Version::Http10 => b" HTTP/1.0\r\n".as_slice(),
            Version::Http11 => b" HTTP/1.1\r\n",
        })?;
        Ok(RequestLine {
            text: Arc::new(alloc, text)?,
            version,
        })
    }

    /// The same line once more, without a copy of its bytes. The only error is out of memory.
    pub fn share(&self) -> Result<Self, AllocError>
        ensures { IfOk result (λ line. line ≡ self.now) }
    {
        Ok(RequestLine {
            text: Arc::try_clone(&self.text)?,
            version: self.version,
        })
    }

    /// Its version.
    pub(crate) fn version(&self) -> Version
        ensures { result ≡ self.now.version }
    {
        self.version
    }

    /// Its bytes, with the CR LF.
    pub(crate) fn as_bytes(&self) -> &[u8]
        ensures { result.now ≡ self.now.text }
    {
        self.text.as_slice()
    }
}

#[cfg(test)]
mod tests {
    use super::*;
    use std::test::Fail;

    #[test]
    fn a_line_is_shared_and_not_copied(rt: HostRuntime) -> Result<(), Fail> {
        let line = RequestLine::new(rt.alloc(), b"GET", b"/h", Version::Http11)?;
        let again = line.share()?;
        assert_eq!(rt; Arc::strong_count(&again.text), 2);
        Ok(())
    }
}
