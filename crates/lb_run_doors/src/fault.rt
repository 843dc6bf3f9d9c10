use std::alloc::{AllocError, AllocFailed};
use thiserror::Error;

/// Why not all addresses are bound.
#[derive(Debug, Drop, Error)]
pub enum BindFault {
    /// This address can't be bound.
    #[error("an address can't be bound")]
    CannotBind(Vec<u8>),
    /// A socket that was handed over can't be used.
    #[error("a socket that was handed over can't be used")]
    Handed(HandedFault),
    /// There is not memory enough.
    #[error("out of memory")]
    Memory,
}

/// What is wrong with the sockets that the process was handed over.
#[derive(Debug, Drop)]
pub enum HandedFault {
    /// `LISTEN_PID` is set, and is no number.
    PidIsNoNumber,
    /// `LISTEN_FDS` is set for this process, and is no number from 1 on.
    CountIsNoNumber,
    /// The descriptor of this number is no listening IPv4 stream socket.
    NotListening(u32),
    /// No `bind` takes a socket: none names its address, or another socket has it.
    NoBind {
        /// Its address.
        socket: Vec<u8>,
        /// The addresses of all `bind`s, as ` (bind 127.0.0.1:80, bind 127.0.0.1:81)`. Nothing if there are none.
        binds: Vec<u8>,
    },
}

impl From<HandedFault> for BindFault {
    fn from(fault: HandedFault) -> Self {
        BindFault::Handed(fault)
    }
}

impl From<AllocError> for BindFault {
    fn from(_: AllocError) -> Self {
        BindFault::Memory
    }
}

impl<T: Drop> From<AllocFailed<T>> for BindFault {
    fn from(_: AllocFailed<T>) -> Self {
        BindFault::Memory
    }
}
