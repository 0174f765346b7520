//! The connection to a server.

use crate::ahead::{Ahead, Polls, SayingSink};
use crate::fault::JoinFault;
use crate::patience::{Patience, PatientReader, SECONDS, has_waited, say_waiting};
use devices::ReadSource;
use frame_line::Line;
use std::alloc::{AllocError, Global};
use std::io;
use std::net::{IpAddr, Ipv4Addr, Net, SocketAddr, TcpListener, TcpStream};
use std::sync::Arc;
use std::time::Duration;

/// What is heard on a connection.
pub(crate) type StreamSource<R> = ReadSource<PatientReader<R>>;

/// A connection: its line, what asks ahead on it, and the socket by which a client waits for news, where the system
/// gave it once more.
pub(crate) struct Connection<R: Eprint + Drop> {
    pub(crate) line: Line<StreamSource<R>, SayingSink>,
    pub(crate) ahead: Ahead,
    pub(crate) watched: Option<TcpStream>,
}

/// Connects to a port of this machine's loopback; its server is awaited with this patience. `NoServer` where nobody
/// answers there within ten seconds.
pub(crate) fn connect<R: Net<Listener = TcpListener, Stream = TcpStream> + Eprint + Copy + Drop>(
    rt: &R,
    alloc: Global,
    port: u16,
    patience: &Arc<Patience>,
) -> Result<Connection<R>, JoinFault> {
    match stream_to(rt, port) {
        Some(stream) => match connection_of(rt, alloc, stream, patience)? {
            Some(connection) => Ok(connection),
            None => Err(JoinFault::NoServer),
        },
        None => Err(JoinFault::NoServer),
    }
}

/// Tries to connect once more, for a second at most. None where nobody answers.
pub(crate) fn reconnect<R: Net<Listener = TcpListener, Stream = TcpStream> + Eprint + Copy + Drop>(
    rt: &R,
    alloc: Global,
    port: u16,
    patience: &Arc<Patience>,
) -> Result<Option<Connection<R>>, AllocError> {
    match TcpStream::connect_timeout(rt, &address(port), Duration::from_secs(1)) {
        Ok(stream) => connection_of(rt, alloc, stream, patience),
        Err(_) => Ok(None),
    }
}

fn connection_of<R: Net + Eprint + Copy + Drop>(
    rt: &R,
    alloc: Global,
    stream: TcpStream,
    patience: &Arc<Patience>,
) -> Result<Option<Connection<R>>, AllocError> {
    let Some((heard, said, other)) = streams(stream) else {
        return Ok(None);
    };
    let watched = other.try_clone().ok();
    let polls = Arc::new(alloc, Polls::none())?;
    let sink = SayingSink::new(said, Arc::try_clone(&polls)?);
    let ahead = Ahead::new(other, Arc::try_clone(&polls)?);
    let reader = PatientReader::new(*rt, heard, Arc::try_clone(patience)?, polls);
    Ok(Some(Connection {
        line: Line::new(alloc, ReadSource::new(reader), sink),
        ahead,
        watched,
    }))
}

/// A connection, three times: to hear, to speak and to ask ahead.
fn streams(stream: TcpStream) -> Option<(TcpStream, TcpStream, TcpStream)> {
    prepare(&stream).ok()?;
    let said = stream.try_clone().ok()?;
    let other = stream.try_clone().ok()?;
    Some((stream, said, other))
}

/// A port of this machine's loopback.
fn address(port: u16) -> SocketAddr {
    SocketAddr::new(IpAddr::V4(Ipv4Addr::LOCALHOST), port)
}

/// A connection within ten seconds; after one it is said that it is awaited.
fn stream_to<R: Net<Listener = TcpListener, Stream = TcpStream> + Eprint>(
    rt: &R,
    port: u16,
) -> Option<TcpStream> {
    let address = address(port);
    match TcpStream::connect_timeout(rt, &address, Duration::from_secs(1)) {
        Ok(stream) => Some(stream),
        Err(error) if has_waited(error.kind()) => {
            say_waiting(rt);
            TcpStream::connect_timeout(rt, &address, Duration::from_secs(SECONDS - 1)).ok()
        }
        Err(_) => None,
    }
}

/// A read waits for a second at most. A small frame goes out at once; it is only slower where that fails.
fn prepare(stream: &TcpStream) -> io::Result<()> {
    let _ = stream.set_nodelay(true);
    stream.set_read_timeout(Some(Duration::from_secs(1)))
}
