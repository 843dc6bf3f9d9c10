use http_relay_lobby::Arrival;
use http_relay_wire::WireFault;
use lb_config::{Config, read_config};
use lb_desk_model::ServedAs;
use lb_desk_ports::{Asked, Filed, Pinning, PortScript, Shut};
use lb_types::ServerId;
use std::io;
use std::io::{ErrorKind, Read, Write};
use std::net::{Ipv4Addr, Shutdown, SocketAddr, SocketAddrV4, TcpListener, TcpStream};
use std::test::Fail;
use std::time::Duration;

/// A frontend without a limit for its clients.
pub(crate) const OPEN: usize = 0;

/// A frontend with `timeout client 50`.
pub(crate) const TIMED: usize = 1;

/// A place at which there is no frontend.
pub(crate) const NOWHERE: usize = 2;

/// Two frontends and one backend, whose server listens at this port.
pub(crate) fn config(rt: &HostRuntime, port: u16) -> Result<Config, Fail> {
    let text = format!(in rt.alloc();
        "frontend open\n  bind *:1\n  default_backend web\n\
         frontend timed\n  bind *:2\n  timeout client 50\n  default_backend web\n\
         backend web\n  server a 127.0.0.1:{port}\n"
    )?;
    Ok(read_config(rt.alloc(), text.as_bytes())?)
}

/// A port that gives each request the backend's server, and opens each connection.
pub(crate) fn open_port() -> PortScript<'static> {
    PortScript {
        asked: Asked::Served(ServerId::new(0), ServedAs::Loose),
        set: Pinning::NoTable,
        openings: &[],
        shut: Shut::Closed,
        filed: Filed::NotChecked,
        refusing: None,
    }
}

/// The relay's end of a connection, which doesn't block, and the client's. The client has sent these bytes, and nothing comes after
/// them if it `ends`.
pub(crate) fn client(
    rt: &HostRuntime,
    sent: &[u8],
    ends: bool,
) -> io::Result<(TcpStream, TcpStream)> {
    let listener = TcpListener::bind(rt, "127.0.0.1:0")?;
    let mut far = TcpStream::connect(rt, listener.local_addr()?)?;
    far.write_all(sent)?;
    if ends {
        far.shutdown(Shutdown::Write)?;
    }
    let (near, _) = listener.accept()?;
    near.set_nonblocking(true)?;
    Ok((near, far))
}

/// The connection of a client of this host, of which the lobby read these bytes, and failed so after them.
pub(crate) fn arrival(
    rt: &HostRuntime,
    stream: TcpStream,
    frontend: usize,
    head: &[u8],
    failed: Option<WireFault>,
) -> Result<Option<Arrival<TcpStream>>, Fail> {
    let address = SocketAddr::V4(SocketAddrV4::new(Ipv4Addr::LOCALHOST, 80));
    let Some(mut arrival) = Arrival::of(rt.alloc(), stream, address, frontend) else {
        return Ok(None);
    };
    arrival.failed = failed;
    if head.len() > arrival.room_left() {
        return Ok(None);
    }
    let arrival = arrival.with_read(head).ok().ok_or("room for a head")?;
    Ok(Some(arrival))
}

/// All that the client gets until the connection is closed or reset, within five seconds.
pub(crate) fn got(rt: &HostRuntime, client: &mut TcpStream) -> Result<Vec<u8>, Fail> {
    let mut bytes = Vec::new(rt.alloc());
    client.set_read_timeout(Some(Duration::from_millis(5000)))?;
    match client.read_to_end(&mut bytes) {
        Err(error) if error.kind() != ErrorKind::ConnectionReset => Err(error.into()),
        _ => Ok(bytes),
    }
}
