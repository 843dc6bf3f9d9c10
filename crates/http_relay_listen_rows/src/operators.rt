use command_socket_listen::{CommandListener, CommandStream};
use lb_config_arguments::Endpoint;
use lb_config_keywords::SocketAddress;
use lb_config_words::Word;
use std::io::{ErrorKind, Read, Write};
use std::net::{Ipv4Addr, Net, TcpListener, TcpStream};
use std::os::unix::fs::PermissionsExt;
use std::os::unix::net::{UnixListener, UnixStream};
use std::path::PathBuf;
use std::sync::Wait;
use std::sync::atomic::{AtomicBool, Ordering};
use std::test::Fail;
use std::thread::join;
use std::time::{Clock, Duration, Instant};
use std::{env, fs, io, process};

// A path of this test alone, at which nothing stands.
fn path_of(rt: &HostRuntime, name: &str) -> io::Result<PathBuf> {
    let name = format!(in rt.alloc(); "operators-{}-{name}", process::id(rt.process()))?;
    Ok(env::temp_dir(rt)?.join(rt.alloc(), name.as_str())?)
}

// The address that the configuration has of this path.
fn address_of(rt: &HostRuntime, path: &str) -> io::Result<SocketAddress> {
    let mut bytes = Vec::new(rt.alloc());
    bytes.extend_from_slice(path.as_bytes())?;
    Ok(SocketAddress::Path(Word::new(bytes)))
}

fn open(rt: &HostRuntime, path: &str) -> io::Result<CommandListener> {
    CommandListener::open(rt, rt.alloc(), &address_of(rt, path)?)
}

// How opening ends: none where it doesn't fail.
fn fault(rt: &HostRuntime, path: &str) -> Option<ErrorKind> {
    match open(rt, path) {
        Ok(listener) => {
            drop(listener);
            None
        }
        Err(error) => Some(error.kind()),
    }
}

// A line goes to the connection, and one comes back.
fn is_answered<S: Read + Write + Drop>(mut near: CommandStream, mut far: S) -> io::Result<bool> {
    let mut line = [0; 5];
    far.write_all(b"stop\n")?;
    near.read_exact(&mut line)?;
    near.write_all(b"\n")?;
    let mut answer = [0; 1];
    far.read_exact(&mut answer)?;
    Ok(line == *b"stop\n" && answer == *b"\n")
}

// Both ends of a connection over the path.
fn talk<R: Wait + Clock + Net>(rt: &R, listener: &CommandListener, path: &str) -> io::Result<bool> {
    let far = UnixStream::connect(rt, path)?;
    match listener.next_connection(rt, &AtomicBool::new(false)) {
        Some(near) => is_answered(near, far),
        None => Ok(false),
    }
}

// Sockets that a dead program left under both names are replaced; the new one is its owner's alone, and gone at the end.
#[test]
fn a_stale_socket_is_replaced(rt: HostRuntime) -> Result<(), Fail> {
    let path = path_of(&rt, "stale")?;
    let path = path.as_str();
    let beside = format!(in rt.alloc(); "{path}.new")?;
    drop(UnixListener::bind(&rt, path)?);
    drop(UnixListener::bind(&rt, beside.as_str())?);
    let listener = open(&rt, path)?;
    let mode = fs::symlink_metadata(&rt, path)?.permissions().mode();
    let is_answered = talk(&rt, &listener, path)?;
    listener.close(&rt)?;
    let is_left = fs::exists(&rt, path)? || fs::exists(&rt, beside.as_str())?;
    assert!(rt; mode & 0o777 == 0o600 && is_answered && !is_left);
    Ok(())
}

// A socket that somebody listens on is left alone, and goes on.
#[test]
fn a_live_socket_is_in_use(rt: HostRuntime) -> Result<(), Fail> {
    let path = path_of(&rt, "live")?;
    let path = path.as_str();
    let listener = open(&rt, path)?;
    let second = fault(&rt, path);
    // The connection by which the second saw that the first is alive comes first.
    let seen = listener.next_connection(&rt, &AtomicBool::new(false));
    let is_answered = talk(&rt, &listener, path)?;
    listener.close(&rt)?;
    assert!(rt; second == Some(ErrorKind::AddrInUse) && seen.is_some() && is_answered);
    Ok(())
}

// A file of another kind is left alone, under either name.
#[test]
fn another_file_is_left_alone(rt: HostRuntime) -> Result<(), Fail> {
    let path = path_of(&rt, "file")?;
    let path = path.as_str();
    let beside = format!(in rt.alloc(); "{path}.new")?;
    for other in [path, beside.as_str()] {
        fs::write(&rt, other, "kept")?;
        let fault = fault(&rt, path);
        let kept = fs::read_to_string(&rt, other)?;
        fs::remove_file(&rt, other)?;
        assert!(rt;
            fault == Some(ErrorKind::AlreadyExists) && kept.as_str() == "kept",
            "{other}"
        );
    }
    let missing = path_of(&rt, "missing/socket")?;
    assert!(rt; fault(&rt, missing.as_str()) == Some(ErrorKind::NotFound));
    Ok(())
}

// A stop is seen soon where no operator comes.
#[test]
fn a_stop_is_seen(rt: HostRuntime) -> Result<(), Fail> {
    let path = path_of(&rt, "stop")?;
    let listener = open(&rt, path.as_str())?;
    let stop = AtomicBool::new(false);
    let begun = Instant::now(&rt)?;
    let (is_stopped, _) = join(
        &rt,
        || listener.next_connection(&rt, &stop).is_none(),
        || stop.store(true, Ordering::SeqCst),
    );
    let taken = begun.elapsed(&rt)?;
    listener.close(&rt)?;
    assert!(rt;
        is_stopped && taken < Duration::from_millis(2000),
        "{taken:?}"
    );
    Ok(())
}

// Operators come over an address too.
#[test]
fn an_address_is_listened_on(rt: HostRuntime) -> Result<(), Fail> {
    let address = TcpListener::bind(&rt, "127.0.0.1:0")?.local_addr()?;
    let endpoint = Endpoint {
        address: Ipv4Addr::new(127, 0, 0, 1),
        port: address.port(),
    };
    let listener = CommandListener::open(&rt, rt.alloc(), &SocketAddress::Tcp(endpoint))?;
    let far = TcpStream::connect(&rt, address)?;
    let is_answered = match listener.next_connection(&rt, &AtomicBool::new(false)) {
        Some(near) => is_answered(near, far)?,
        None => false,
    };
    listener.close(&rt)?;
    assert!(rt; is_answered);
    Ok(())
}
