use std::io::ErrorKind;
use std::time::{Clock, Duration};
use std::{io, thread};

/// How many milliseconds nothing is accepted after an error that may last.
const REST_MILLIS: u64 = 10;

/// The system's errors of an accept that belong to the connection alone which would have been accepted (accept(2)): `EPERM`, `ENONET`,
/// `EPROTO`, `ENOPROTOOPT`, `EOPNOTSUPP`, `ENETDOWN`, `ENETUNREACH`, `EHOSTDOWN`, `EHOSTUNREACH`.
const OF_ONE_CONNECTION: [i32; 9] = [1, 64, 71, 92, 95, 100, 101, 112, 113];

/// Rests for 10 ms after an error of an accept that may last, such as too many open files, so that no loop spins on it. An accept
/// that ended because nobody came, or whose client left at once, is followed by the next without a rest.
pub fn rest_after<R: Clock>(rt: &R, error: &io::Error) {
    if !passes(error) {
        thread::sleep(rt, Duration::from_millis(REST_MILLIS));
    }
}

/// Whether the next accept has nothing to do with this one's error.
pub fn passes(error: &io::Error) -> bool {
    let is_of_its_connection = match error.raw_os_error() {
        Some(number) => OF_ONE_CONNECTION.contains(&number),
        None => false,
    };
    is_of_its_connection
        || matches!(
            error.kind(),
            ErrorKind::WouldBlock
                | ErrorKind::TimedOut
                | ErrorKind::Interrupted
                | ErrorKind::ConnectionAborted
        )
}
