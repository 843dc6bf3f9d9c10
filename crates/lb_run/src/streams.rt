use libc::net::{POLLNVAL, poll};
use libc::types::pollfd;
use std::fs::{Files, OpenOptions};

/// What was opened instead of standard streams that were closed.
#[derive(Drop)]
pub(crate) struct Held<F: Drop> {
    input: Option<F>,
    output: Option<F>,
    errors: Option<F>,
}

/// Opens `/dev/null` for each of the standard streams that is closed. A connection would get its number else, and lines for standard error
/// would go to a client. The streams stay open while the result lives.
pub(crate) fn hold_closed_streams<R: Files>(rt: &R) -> Held<R::File> {
    Held {
        input: hold(rt, 0),
        output: hold(rt, 1),
        errors: hold(rt, 2),
    }
}

/// Opens the stream of this number if it is closed and all below it are open: what is opened gets the least number that is free.
fn hold<R: Files>(rt: &R, number: i32) -> Option<R::File> {
    if is_open(number) {
        return None;
    }
    OpenOptions::new()
        .read(true)
        .write(true)
        .open(rt, "/dev/null")
        .ok()
}

fn is_open(number: i32) -> bool {
    let mut asked = [pollfd {
        fd: number,
        events: 0,
        revents: 0,
    }];
    poll(&mut asked, 0) == 0 || asked[0].revents & POLLNVAL == 0
}
