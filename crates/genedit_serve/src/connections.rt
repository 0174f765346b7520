//! Connections.

use std::io::ErrorKind;
use std::net::{IpAddr, Ipv4Addr, Ipv6Addr, Net, SocketAddr, TcpListener, TcpStream};
use std::thread;
use std::time::{Clock, Duration};

/// How long it is waited before the system is asked again for a connection: a tenth of a second.
pub(crate) fn pause() -> Duration {
    Duration::from_millis(100)
}

/// A connection: to read, to write, to wait at, and, where that may have to be, to be ended from outside.
#[derive(Drop)]
pub(crate) struct Connection {
    pub(crate) read: TcpStream,
    pub(crate) write: TcpStream,
    pub(crate) wait: TcpStream,
    pub(crate) held: Option<TcpStream>,
}

impl Connection {
    /// A connection by a stream of it. The stream comes back where the system has no descriptor left.
    pub(crate) fn of(read: TcpStream, is_held: bool) -> Result<Connection, TcpStream> {
        let (Ok(write), Ok(wait)) = (read.try_clone(), read.try_clone()) else {
            return Err(read);
        };
        if !is_held {
            return Ok(Connection {
                read,
                write,
                wait,
                held: None,
            });
        }
        match read.try_clone() {
            Err(_) => Err(read),
            Ok(held) => Ok(Connection {
                read,
                write,
                wait,
                held: Some(held),
            }),
        }
    }
}

/// The next stream of a listener. A small frame goes out at once: without that, the second of two waits for the
/// other side to confirm the first.
pub(crate) fn accepted(listener: &TcpListener) -> Option<TcpStream> {
    let (stream, _) = listener.accept().ok()?;
    // It is only slower where that fails, as on a connection that is gone already.
    let _ = stream.set_nodelay(true);
    Some(stream)
}

/// How often it is knocked where the system gives no connection: for an hour.
const KNOCKS: u32 = 36_000;

/// Makes a connection of one's own to where a listener of this machine is, which lets an `accept` there return. Where a
/// connection is refused, nobody listens any more, and so nobody waits. Where the system has no descriptor left, it
/// has some again once sessions have ended.
pub(crate) fn knock<R: Net + Clock>(rt: &R, local: SocketAddr) {
    let local = within_reach(local);
    for _knock in 0..KNOCKS {
        match TcpStream::connect(rt, local) {
            Ok(_) => return,
            Err(error) if error.kind() == ErrorKind::ConnectionRefused => return,
            Err(_) => thread::sleep(rt, pause()),
        }
    }
}

/// Where a listener is reached from this machine: one at every address of it, by the loopback.
fn within_reach(local: SocketAddr) -> SocketAddr {
    match local.ip() {
        IpAddr::V4(ip) if ip.is_unspecified() => {
            SocketAddr::new(IpAddr::V4(Ipv4Addr::LOCALHOST), local.port())
        }
        IpAddr::V6(ip) if ip.is_unspecified() => {
            SocketAddr::new(IpAddr::V6(Ipv6Addr::LOCALHOST), local.port())
        }
        _ => local,
    }
}
