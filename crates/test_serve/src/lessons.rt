//! Sessions over connections, as the protocol tells them.

use crate::clients::{BYE, EDIT, HELLO, POLL, PUSH, connected, gets, greeted, is_ended, send};
use crate::served::Served;
use std::alloc::Global;
use std::io;
use std::net::{Net, TcpListener, TcpStream};
use std::sync::Wait;
use std::test::Fail;
use std::thread::Threads;
use std::time::Clock;

/// Whether a session of seat 1 that greets, pushes an edit, polls it back and ends gets the replies of the
/// protocol.
fn draws(alloc: Global, stream: &TcpStream) -> io::Result<bool> {
    send(stream, PUSH)?;
    let pushed = gets(alloc, stream, b"\x00\x00\x00\x01\x00")?;
    send(stream, POLL)?;
    let polled = gets(alloc, stream, b"\x00\x00\x00\x05\x00\x00\x00\x00\x01")?
        && gets(alloc, stream, EDIT)?;
    send(stream, BYE)?;
    Ok(pushed && polled && gets(alloc, stream, b"\x00\x00\x00\x01\x00")? && is_ended(stream)?)
}

/// Whether a session of seat 2 that greets and ends gets its replies.
fn looks<R: Net<Stream = TcpStream>>(rt: &R, alloc: Global, port: u16) -> Result<bool, Fail> {
    let stream = greeted(rt, alloc, port, 2)?;
    send(&stream, BYE)?;
    Ok(gets(alloc, &stream, b"\x00\x00\x00\x01\x00")? && is_ended(&stream)?)
}

#[test]
fn two_sessions_and_the_closing_lines(rt: HostRuntime) -> Result<(), Fail> {
    let alloc = rt.alloc();
    let server = Served::start(rt, alloc, 2)?;
    let first = greeted(&rt, alloc, server.port, 1)?;
    assert!(&rt; looks(&rt, alloc, server.port)?);
    assert!(&rt; draws(alloc, &first)?);
    let told = server.told(&rt, alloc)?;
    assert_eq!(&rt;
        told.as_str(),
        "session 1 edits 1\nsession 2 edits 0\nclosed 1\n"
    );
    Ok(())
}

/// Whether a session that is sent these requests a byte at a time gets the replies to them.
fn spells<R: Net<Stream = TcpStream>>(rt: &R, alloc: Global, port: u16) -> io::Result<bool> {
    let stream = connected(rt, port)?;
    for request in [HELLO, POLL, b"\x00\x00\x00\x01\x09", BYE] {
        for byte in request.chunks(1) {
            send(&stream, byte)?;
        }
    }
    let greeted = gets(alloc, &stream, b"\x00\x00\x00\x08\x00\x00\x01\x04/2/3")?;
    let polled = gets(alloc, &stream, b"\x00\x00\x00\x05\x00\x00\x00\x00\x00")?;
    let refused = gets(alloc, &stream, b"\x00\x00\x00\x01\x21")?;
    let ended = gets(alloc, &stream, b"\x00\x00\x00\x01\x00")? && is_ended(&stream)?;
    Ok(greeted && polled && refused && ended)
}

#[test]
fn bytes_that_come_one_by_one(rt: HostRuntime) -> Result<(), Fail> {
    let alloc = rt.alloc();
    let server = Served::start(rt, alloc, 1)?;
    assert!(&rt; spells(&rt, alloc, server.port)?);
    let told = server.told(&rt, alloc)?;
    assert_eq!(&rt; told.as_str(), "session 1 edits 0\nclosed 0\n");
    Ok(())
}

/// A server with one seat, and a connection to it.
#[derive(Drop)]
struct Lesson {
    server: Served,
    stream: TcpStream,
}

fn begin<
    R: Net<Listener = TcpListener, Stream = TcpStream>
        + Clock
        + Threads
        + Wait
        + Copy
        + Drop
        + Send
        + Sync
        + 'static,
>(rt: R, alloc: Global) -> Result<Lesson, Fail> {
    let server = Served::start(rt, alloc, 1)?;
    let stream = connected(&rt, server.port)?;
    Ok(Lesson { server, stream })
}

/// Whether a session that polls and ends gets its replies: no edit, and the end.
fn polls_nothing(alloc: Global, stream: &TcpStream) -> io::Result<bool> {
    send(stream, POLL)?;
    let polled = gets(alloc, stream, b"\x00\x00\x00\x05\x00\x00\x00\x00\x00")?;
    send(stream, BYE)?;
    Ok(polled && gets(alloc, stream, b"\x00\x00\x00\x01\x00")?)
}

#[test]
fn two_servers_at_a_time(rt: HostRuntime) -> Result<(), Fail> {
    let alloc = rt.alloc();
    let one = begin(rt, alloc)?;
    let other = begin(rt, alloc)?;
    assert!(&rt; draws(alloc, &one.stream)?);
    assert!(&rt; polls_nothing(alloc, &other.stream)?, "a board of its own");
    assert_eq!(&rt;
        one.server.told(&rt, alloc)?.as_str(),
        "session 1 edits 1\nclosed 1\n"
    );
    assert_eq!(&rt;
        other.server.told(&rt, alloc)?.as_str(),
        "session 1 edits 0\nclosed 0\n"
    );
    Ok(())
}
