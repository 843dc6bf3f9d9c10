ghost use Rattle.std.specs.Prelude.{◌≡◌, ◌++◌, IfOk, codes, string_bytes};

use http_relay_listen::with_tick;
use std::alloc::{AllocError, Global};
use std::fs::{Files, Permissions};
use std::io::ErrorKind;
use std::net::Net;
use std::os::fd::OwnedFd;
use std::os::unix::fs::{FileTypeExt, PermissionsExt};
use std::os::unix::net::{UnixListener, UnixStream};
use std::{fs, io};

/// Only the owner may connect.
const MODE: u32 = 0o600;

/// What stands at a path.
#[derive(Clone, Copy)]
enum Found {
    /// Nothing.
    Nothing,
    /// A socket that nobody listens on.
    StaleSocket,
}

/// Listens at the path, so that only the owner may connect, and an accept ends as `WouldBlock` where nobody came for 100 ms. A socket
/// that nobody listens on is replaced. `AddrInUse`: somebody listens there. `AlreadyExists`: another kind of file stands there, and
/// is left alone. Other errors are the system's.
///
/// The socket is made at the path with `.new` appended, and moved once its mode is set. So it never stands at the path with another
/// mode. Both paths have to be shorter than 108 bytes.
pub(crate) fn listen_at<R: Files + Net>(
    rt: &R,
    alloc: Global,
    path: &str,
) -> io::Result<UnixListener> {
    look_at(rt, path)?;
    let beside = beside(alloc, path)?;
    if let Found::StaleSocket = look_at(rt, beside.as_str())? {
        fs::remove_file(rt, beside.as_str())?;
    }
    let listener = UnixListener::bind(rt, beside.as_str())?;
    match put_in_place(rt, beside.as_str(), path) {
        Ok(()) => Ok(UnixListener::from(with_tick(OwnedFd::from(listener))?)),
        Err(error) => {
            fs::remove_file(rt, beside.as_str())?;
            Err(error)
        }
    }
}

/// What stands at the path, if a socket may be put there.
fn look_at<R: Files + Net>(rt: &R, path: &str) -> io::Result<Found> {
    let kind = match fs::symlink_metadata(rt, path) {
        Ok(metadata) => metadata.file_type(),
        Err(error) if error.kind() == ErrorKind::NotFound => return Ok(Found::Nothing),
        Err(error) => return Err(error),
    };
    if !kind.is_socket() {
        return Err(ErrorKind::AlreadyExists.into());
    }
    match UnixStream::connect(rt, path) {
        Ok(_) => Err(ErrorKind::AddrInUse.into()),
        Err(error) if error.kind() == ErrorKind::ConnectionRefused => Ok(Found::StaleSocket),
        Err(error) => Err(error),
    }
}

/// Sets the socket's mode and moves it to the path, over what stands there.
fn put_in_place<R: Files>(rt: &R, beside: &str, path: &str) -> io::Result<()> {
    fs::set_permissions(rt, beside, Permissions::from_mode(MODE))?;
    fs::rename(rt, beside, path)
}

/// The path with `.new` appended. The only error is out of memory.
fn beside(alloc: Global, path: &str) -> Result<String, AllocError>
    ensures { IfOk result (λ beside. string_bytes beside ≡ path.now ++ codes ".new") }
{
    let mut beside = String::new(alloc);
    beside.push_str(path)?;
    beside.push_str(".new")?;
    Ok(beside)
}
