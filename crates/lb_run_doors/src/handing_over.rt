use crate::fault::{BindFault, HandedFault};
use crate::handed_socket::HandedSocket;
use libc::getpid;
use std::alloc::Global;
use std::env::{Env, FillError};

/// The first descriptor that is handed over. Those below are the standard streams.
const FIRST: u32 = 3;

/// No number has more bytes, except for one with zeros in front.
const LONGEST: usize = 32;

/// The sockets that the process was handed over (sd_listen_fds(3)), in the order of their descriptors: where `LISTEN_PID` is the
/// number of this process, `LISTEN_FDS` is how many there are, from descriptor 3 on. To be called once, before anything is opened.
///
/// The first fault: a variable that is no number, or the first descriptor that is no listening IPv4 stream socket.
pub fn handed_over<R: Env>(rt: &R, alloc: Global) -> Result<Vec<HandedSocket>, BindFault> {
    let mut sockets = Vec::new(alloc);
    for number in FIRST..FIRST.saturating_add(count(rt)?) {
        let handed = match i32::try_from(number) {
            Ok(descriptor) => HandedSocket::of_descriptor(descriptor),
            Err(_) => None,
        };
        match handed {
            Some(socket) => sockets.push(socket)?,
            None => return Err(HandedFault::NotListening(number).into()),
        }
    }
    Ok(sockets)
}

/// How many there are.
fn count<R: Env>(rt: &R) -> Result<u32, HandedFault> {
    match variable(rt, "LISTEN_PID") {
        Said::Number(number) if number == getpid().unsigned_abs() => {}
        Said::Other => return Err(HandedFault::PidIsNoNumber),
        Said::Number(_) | Said::Unset => return Ok(0),
    }
    match variable(rt, "LISTEN_FDS") {
        Said::Number(number) => Ok(number),
        Said::Other => Err(HandedFault::CountIsNoNumber),
        Said::Unset => Ok(0),
    }
}

/// What a variable of the environment says.
enum Said {
    Unset,
    /// 1 or more.
    Number(u32),
    Other,
}

fn variable<R: Env>(rt: &R, name: &str) -> Said {
    let mut text = [0; LONGEST];
    match rt.var(name, &mut text) {
        Ok(length) => number_in(&text[..length]),
        Err(FillError::NotPresent) => Said::Unset,
        Err(FillError::TooLong) => Said::Other,
    }
}

fn number_in(text: &[u8]) -> Said {
    let Ok(text) = str::from_utf8(text) else {
        return Said::Other;
    };
    match text.parse::<u32>() {
        Ok(number) if number > 0 => Said::Number(number),
        _ => Said::Other,
    }
}
