use http_relay_listen::{OtherFiles, most_open_files};
use std::net::OpenStream;
use std::os::fd::AsRawFd;

/// The end of the descriptors that clients' connections may have, so that dials and checks find one, if the limit of open files
/// leaves room for them (`OtherFiles::end_of_clients`). The system gives each connection the lowest free descriptor.
#[derive(Clone, Copy, Debug)]
pub(crate) struct Ceiling {
    files: OtherFiles,
    end: usize,
}

impl Ceiling {
    /// As it follows from the system's limit and from the files that the balancer needs besides.
    pub(crate) fn new(files: OtherFiles) -> Self {
        Ceiling {
            files,
            end: files.end_of_clients(most_open_files()),
        }
    }

    /// Follows the system's limit, which may have been changed.
    pub(crate) fn measure(&mut self) {
        self.end = self.files.end_of_clients(most_open_files());
    }

    /// Whether a client's connection may keep its descriptor.
    pub(crate) fn allows<S: AsRawFd>(&self, stream: &S) -> bool {
        match usize::try_from(stream.as_raw_fd()) {
            Ok(descriptor) => descriptor < self.end,
            Err(_) => true,
        }
    }

    /// The same connection under the lowest descriptor that is free now, if a client may keep that. Else the connection as it is.
    pub(crate) fn lowered<S: OpenStream + AsRawFd + Drop>(&self, stream: S) -> Result<S, S> {
        match stream.try_clone() {
            Ok(lower) if self.allows(&lower) => Ok(lower),
            _ => Err(stream),
        }
    }
}
