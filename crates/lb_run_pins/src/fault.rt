use pin_file::{ReadError, TextFault};
use std::alloc::{AllocError, AllocFailed};
use std::io;
use thiserror::Error;

/// Why a file of pins isn't read.
#[derive(Clone, Copy, Debug, PartialEq, Eq, Error)]
pub enum PinsFault {
    /// It can't be opened or read.
    #[error("the file can't be read")]
    CannotRead,
    /// There is not memory enough.
    #[error("out of memory")]
    Memory,
    /// It is no file of pins of this version: its text has this fault.
    #[error("{0}")]
    Text(TextFault),
}

impl From<ReadError> for PinsFault {
    fn from(error: ReadError) -> Self {
        match error {
            ReadError::Memory => PinsFault::Memory,
            ReadError::Fault(fault) => PinsFault::Text(fault),
        }
    }
}

/// The file can't be written, or there is not memory enough to do so.
#[derive(Clone, Copy, Debug, PartialEq, Eq, Error)]
#[error("the file can't be written")]
pub struct Unwritten;

impl From<AllocError> for Unwritten {
    fn from(_: AllocError) -> Self {
        Unwritten
    }
}

impl<T: Drop> From<AllocFailed<T>> for Unwritten {
    fn from(_: AllocFailed<T>) -> Self {
        Unwritten
    }
}

impl From<io::Error> for Unwritten {
    fn from(_: io::Error) -> Self {
        Unwritten
    }
}
