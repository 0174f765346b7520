//! Clients that speak bytes.

use std::alloc::Global;
use std::io::{self, Read, Write};
use std::net::{Net, TcpStream};
use std::test::Fail;

/// The requests of a session, in their frames.
pub const HELLO: &[u8] = b"\x00\x00\x00\x01\x01";

pub const POLL: &[u8] = b"\x00\x00\x00\x01\x03";

pub const BYE: &[u8] = b"\x00\x00\x00\x01\x06";

/// A push of seat 1: state 1 at the origin, with counter 1.
pub const PUSH: &[u8] =
    b"\x00\x00\x00\x25\x02GLWD\x01\x04/2/3\x00\x00\x00\x01\x00\x00\x00\x00\x00\x01\x00\x01\x00\x00\x00\x00\x01\x40\x00\x00\x00\x40\x00\x00\x00\x01";

/// The delta text of that edit, in its frame.
pub const EDIT: &[u8] =
    b"\x00\x00\x00\x24GLWD\x01\x04/2/3\x00\x00\x00\x01\x00\x00\x00\x00\x00\x01\x00\x01\x00\x00\x00\x00\x01\x40\x00\x00\x00\x40\x00\x00\x00\x01";

/// A connection to a port of this machine.
pub fn connected<R: Net<Stream = TcpStream>>(rt: &R, port: u16) -> io::Result<TcpStream> {
    let stream = TcpStream::connect(rt, ("127.0.0.1", port))?;
    stream.set_nodelay(true)?;
    Ok(stream)
}

/// A connection over which a greeting was replied to with this seat's number.
pub fn greeted<R: Net<Stream = TcpStream>>(
    rt: &R,
    alloc: Global,
    port: u16,
    number: u8,
) -> Result<TcpStream, Fail> {
    let stream = connected(rt, port)?;
    send(&stream, HELLO)?;
    let mut reply = *b"\x00\x00\x00\x08\x00\x00\x00\x04/2/3";
    reply[6] = number;
    if gets(alloc, &stream, &reply)? {
        Ok(stream)
    } else {
        Err(Fail::from("another greeting"))
    }
}

/// Sends bytes.
pub fn send(stream: &TcpStream, bytes: &[u8]) -> io::Result<()> {
    let mut to = stream;
    to.write_all(bytes)
}

/// Whether the next bytes that come are these.
pub fn gets(alloc: Global, stream: &TcpStream, bytes: &[u8]) -> io::Result<bool> {
    let mut from = stream;
    let mut got = vec![in alloc; 0u8; bytes.len()]?;
    from.read_exact(&mut got)?;
    Ok(got.as_slice() == bytes)
}

/// Whether nothing more comes.
pub fn is_ended(stream: &TcpStream) -> io::Result<bool> {
    let mut from = stream;
    let mut piece = [0u8; 1];
    Ok(from.read(&mut piece)? == 0)
}
