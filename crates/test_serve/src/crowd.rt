//! As many sessions as a board has seats for.

use crate::clients::{BYE, HELLO, connected, gets, is_ended, send};
use crate::served::Served;
use std::alloc::Global;
use std::io::{self, Read};
use std::net::{Net, TcpStream};
use std::test::Fail;

/// So many connections, all open at once.
fn crowd<R: Net<Stream = TcpStream>>(
    rt: &R,
    alloc: Global,
    port: u16,
    count: usize,
) -> io::Result<Vec<TcpStream>> {
    let mut streams = Vec::new(alloc);
    for _ in 0..count {
        streams.push(connected(rt, port)?)?;
    }
    Ok(streams)
}

/// Sends a request over each of the connections.
fn send_all(streams: &[TcpStream], request: &[u8]) -> io::Result<()> {
    for stream in streams {
        send(stream, request)?;
    }
    Ok(())
}

/// The seat's number in the reply to a greeting.
fn number_of(stream: &TcpStream) -> io::Result<u64> {
    let mut from = stream;
    let mut reply = [0u8; 12];
    from.read_exact(&mut reply)?;
    Ok(u64::from(reply[6]))
}

/// Whether each connection's seat has the number of its place, from 1.
fn are_numbered(streams: &[TcpStream]) -> io::Result<bool> {
    let mut number: u64 = 1;
    for stream in streams {
        if number_of(stream)? != number {
            return Ok(false);
        }
        number = number.saturating_add(1);
    }
    Ok(true)
}

/// Whether each is replied one byte, 0, and then ended.
fn are_done(streams: &[TcpStream]) -> io::Result<bool> {
    for stream in streams {
        let mut from = stream;
        let mut reply = [9u8; 5];
        from.read_exact(&mut reply)?;
        if reply != [0, 0, 0, 1, 0] || !is_ended(stream)? {
            return Ok(false);
        }
    }
    Ok(true)
}

#[test]
fn sixty_four_at_once_and_no_more(rt: HostRuntime) -> Result<(), Fail> {
    let alloc = rt.alloc();
    let server = Served::start(rt, alloc, 64)?;
    let streams = crowd(&rt, alloc, server.port, 64)?;
    send_all(&streams, HELLO)?;
    assert!(&rt;
        are_numbered(&streams)?,
        "seats by the order of their connections"
    );
    assert!(&rt;
        is_turned_away(&rt, alloc, server.port, &[])?,
        "a seat that the board does not have"
    );
    send_all(&streams, BYE)?;
    assert!(&rt; are_done(&streams)?);
    let told = server.told(&rt, alloc)?;
    assert_eq!(&rt; told.lines().count(), 65);
    assert!(&rt; told.ends_with("session 64 edits 0\nclosed 0\n"), "{told}");
    Ok(())
}

/// What is said to a connection behind the last seat.
const NO_SEAT: &[u8] = b"\x00\x00\x00\x01\x2d";

/// Whether a connection that greets, and says more behind that, is told that there is no seat, and nothing
/// else.
fn is_turned_away<R: Net<Stream = TcpStream>>(
    rt: &R,
    alloc: Global,
    port: u16,
    more: &[u8],
) -> io::Result<bool> {
    let stream = connected(rt, port)?;
    send(&stream, HELLO)?;
    send(&stream, more)?;
    Ok(gets(alloc, &stream, NO_SEAT)? && is_ended(&stream)?)
}

#[test]
fn whoever_comes_behind_the_last_seat(rt: HostRuntime) -> Result<(), Fail> {
    let alloc = rt.alloc();
    let server = Served::start(rt, alloc, 1)?;
    let first = connected(&rt, server.port)?;
    send(&first, HELLO)?;
    assert_eq!(&rt; number_of(&first)?, 1);
    // one that says nothing holds up nobody, and is closed
    let silent = connected(&rt, server.port)?;
    assert!(&rt; is_turned_away(&rt, alloc, server.port, BYE)?);
    let much = vec![in alloc; 0u8; 100_000]?;
    assert!(&rt; is_turned_away(&rt, alloc, server.port, &much)?);
    assert!(&rt; is_ended(&silent)?);
    send(&first, BYE)?;
    assert!(&rt; gets(alloc, &first, b"\x00\x00\x00\x01\x00")?);
    assert_eq!(&rt;
        server.told(&rt, alloc)?.as_str(),
        "session 1 edits 0\nclosed 0\n"
    );
    Ok(())
}
