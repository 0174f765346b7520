//! Sockets over TCP: their ends, and a visitor's time.

use crate::heads::{ACCEPT, house};
use crate::memory::{BINARY, put};
use std::alloc::Global;
use std::io;
use std::io::{ErrorKind, Read, Write};
use std::net::{Ipv4Addr, Net, SocketAddr, TcpListener, TcpStream};
use std::test::Fail;
use std::time::{Clock, Duration, Instant};
use web_requests::SeatRequest;
use web_streams::{Came, SocketReader, SocketWriter, TcpHalf, Timed, hear_head, open_socket};

/// Both ends of a connection: a server's, and a browser's.
fn connected<R: Net<Listener = TcpListener, Stream = TcpStream>>(
    rt: &R,
) -> io::Result<(TcpStream, TcpStream)> {
    let listener = TcpListener::bind(rt, SocketAddr::from((Ipv4Addr::LOCALHOST, 0)))?;
    let browser = TcpStream::connect(rt, listener.local_addr()?)?;
    let (server, _) = listener.accept()?;
    browser.set_read_timeout(Some(Duration::from_secs(20)))?;
    Ok((server, browser))
}

type Halves = (SocketReader<TcpHalf>, SocketWriter<TcpHalf>);

fn opened(alloc: Global, server: TcpStream, browser: &mut TcpStream) -> Result<Halves, Fail> {
    let request = SeatRequest {
        key: *b"0123456789abcdef0123456789abcdef",
        accept: *ACCEPT,
        head_len: 0,
    };
    let halves = open_socket(alloc, TcpHalf::of(server), &request, Vec::new(alloc))?;
    let mut welcome = [0; 129];
    browser.read_exact(&mut welcome)?;
    Ok(halves)
}

#[test]
fn both_ways(rt: HostRuntime) -> Result<(), Fail> {
    let alloc = rt.alloc();
    let (server, mut browser) = connected(&rt)?;
    let (mut reader, mut writer) = opened(alloc, server, &mut browser)?;
    assert_eq!(&rt; reader.has_come(), Came::Nothing);
    let mut bytes = Vec::new(alloc);
    put(&mut bytes, BINARY, true, b"hello")?;
    browser.write_all(&bytes)?;
    let mut piece = [0; 9];
    reader.read_exact(&mut piece)?;
    assert_eq!(&rt; piece, *b"\x00\x00\x00\x05hello");
    assert_eq!(&rt; reader.has_come(), Came::Nothing);
    writer.write_all(b"\x00\x00\x00\x02hi")?;
    let mut answer = [0; 4];
    browser.read_exact(&mut answer)?;
    assert_eq!(&rt; answer, *b"\x82\x02hi");
    drop(browser);
    assert_eq!(&rt; reader.read(&mut piece)?, 0);
    assert_eq!(&rt; reader.has_come(), Came::End);
    Ok(())
}

/// Once both halves are let go, the connection is ended, though somebody else holds it.
#[test]
fn both_halves_end_a_connection(rt: HostRuntime) -> Result<(), Fail> {
    let alloc = rt.alloc();
    let (server, mut browser) = connected(&rt)?;
    let held = server.try_clone()?;
    let (reader, mut writer) = opened(alloc, server, &mut browser)?;
    drop(reader);
    writer.write_all(b"\x00\x00\x00\x02hi")?;
    drop(writer);
    let mut all = Vec::new(alloc);
    browser.read_to_end(&mut all)?;
    assert_eq!(&rt; all.as_slice(), b"\x82\x02hi".as_slice());
    let mut byte = [0; 1];
    let mut held = held;
    assert_eq!(&rt; held.read(&mut byte)?, 0);
    Ok(())
}

/// Whoever pushes to a browser that has gone is told so, and no session hears of it as of a message.
#[test]
fn a_push_to_who_has_gone(rt: HostRuntime) -> Result<(), Fail> {
    let alloc = rt.alloc();
    let (server, mut browser) = connected(&rt)?;
    let (mut reader, mut writer) = opened(alloc, server, &mut browser)?;
    drop(browser);
    let mut failed = false;
    for _push in 0..100 {
        failed |= writer.write_all(b"\x00\x00\x00\x02hi").is_err();
    }
    assert!(&rt; failed);
    let mut piece = [0; 4];
    assert_eq!(&rt; reader.read(&mut piece)?, 0);
    Ok(())
}

#[test]
fn a_visitor_who_says_nothing(rt: HostRuntime) -> Result<(), Fail> {
    let alloc = rt.alloc();
    let (server, mut browser) = connected(&rt)?;
    browser.write_all(b"GET / HTTP/1.1\r\nHo")?;
    let begun = Instant::now(&rt)?;
    let end = begun.checked_add(Duration::from_millis(200)).ok_or("time")?;
    let mut timed = Timed::new(&server, &rt, end);
    let heard = hear_head(alloc, &mut timed, &house(alloc)?);
    assert!(&rt; heard.is_err());
    let took = begun.elapsed(&rt)?;
    assert!(&rt; took >= Duration::from_millis(200) && took < Duration::from_secs(5));
    let late = timed.write(b"x").err().map(|error| error.kind());
    assert_eq!(&rt; late, Some(ErrorKind::TimedOut));
    Ok(())
}

/// The last words are heard, though more was sent than was read.
#[test]
fn last_words(rt: HostRuntime) -> Result<(), Fail> {
    let alloc = rt.alloc();
    let (server, mut browser) = connected(&rt)?;
    browser.write_all(&[b'x'; 3000])?;
    browser.shutdown(std::net::Shutdown::Write)?;
    let begun = Instant::now(&rt)?;
    let end = begun.checked_add(Duration::from_secs(20)).ok_or("time")?;
    Timed::new(&server, &rt, end).say_last(b"farewell")?;
    drop(server);
    let mut all = Vec::new(alloc);
    browser.read_to_end(&mut all)?;
    assert_eq!(&rt; all.as_slice(), b"farewell".as_slice());
    Ok(())
}
