//! Sessions over connections that await news: what ends a wait, and that nothing else does.

use crate::clients::{BYE, EDIT, POLL, PUSH, gets, greeted, send};
use crate::served::Served;
use std::alloc::Global;
use std::io;
use std::net::TcpStream;
use std::test::Fail;
use std::time::{Clock, Duration, Instant};

/// An Await of a fifth of a second, and one of a minute, in their frames.
const BRIEFLY: &[u8] = b"\x00\x00\x00\x05\x08\x00\x00\x00\xc8";

const LONG: &[u8] = b"\x00\x00\x00\x05\x08\x00\x00\xea\x60";

/// The replies of no edit, and of one edit that follows.
const NO_EDIT: &[u8] = b"\x00\x00\x00\x05\x00\x00\x00\x00\x00";

const ONE_EDIT: &[u8] = b"\x00\x00\x00\x05\x00\x00\x00\x00\x01";

const DONE: &[u8] = b"\x00\x00\x00\x01\x00";

/// How long a test waits for a reply at most; an Await of a minute that nothing ends fails it.
fn patience() -> Duration {
    Duration::from_secs(20)
}

/// Whether nothing comes for a time.
fn is_silent(stream: &TcpStream, time: Duration) -> io::Result<bool> {
    stream.set_read_timeout(Some(time))?;
    let mut byte = [0u8; 1];
    let came = stream.peek(&mut byte);
    stream.set_read_timeout(Some(patience()))?;
    match came {
        Ok(_) => Ok(false),
        Err(error) => Ok(matches!(
            error.kind(),
            io::ErrorKind::WouldBlock | io::ErrorKind::TimedOut
        )),
    }
}

/// Whether a session leaves as it should.
fn leaves(alloc: Global, stream: &TcpStream) -> io::Result<bool> {
    send(stream, BYE)?;
    gets(alloc, stream, DONE)
}

/// How long it takes until an Await of a fifth of a second is answered by no edit, three times one after another.
fn awaited<C: Clock>(clock: &C, alloc: Global, stream: &TcpStream) -> Result<Duration, Fail> {
    let begun = Instant::now(clock)?;
    for _time in 0..3 {
        send(stream, BRIEFLY)?;
        if !gets(alloc, stream, NO_EDIT)? {
            return Err(Fail::from("another reply"));
        }
    }
    Ok(begun.elapsed(clock)?)
}

#[test]
fn a_wait_is_as_long_as_it_says_where_nothing_comes(rt: HostRuntime) -> Result<(), Fail> {
    let alloc = rt.alloc();
    let server = Served::start(rt, alloc, 1)?;
    let stream = greeted(&rt, alloc, server.port, 1)?;
    assert!(&rt; awaited(&rt, alloc, &stream)? >= Duration::from_millis(600));
    assert!(&rt; leaves(alloc, &stream)?);
    let told = server.told(&rt, alloc)?;
    assert_eq!(&rt; told.as_str(), "session 1 edits 0\nclosed 0\n");
    Ok(())
}

#[test]
fn a_wait_ends_by_an_edit_of_another(rt: HostRuntime) -> Result<(), Fail> {
    let alloc = rt.alloc();
    let server = Served::start(rt, alloc, 2)?;
    let draws = greeted(&rt, alloc, server.port, 1)?;
    let waits = greeted(&rt, alloc, server.port, 2)?;
    send(&waits, LONG)?;
    assert!(&rt; is_silent(&waits, Duration::from_millis(100))?);
    send(&draws, PUSH)?;
    assert!(&rt; gets(alloc, &draws, DONE)?);
    assert!(&rt; gets(alloc, &waits, ONE_EDIT)? && gets(alloc, &waits, EDIT)?);
    // What was handed out is no news any more; one's own edit is.
    send(&waits, BRIEFLY)?;
    assert!(&rt; gets(alloc, &waits, NO_EDIT)?);
    send(&draws, LONG)?;
    assert!(&rt; gets(alloc, &draws, ONE_EDIT)? && gets(alloc, &draws, EDIT)?);
    assert!(&rt; leaves(alloc, &draws)? && leaves(alloc, &waits)?);
    let told = server.told(&rt, alloc)?;
    assert_eq!(&rt;
        told.as_str(),
        "session 1 edits 1\nsession 2 edits 0\nclosed 1\n"
    );
    Ok(())
}

#[test]
fn a_wait_ends_by_a_byte_of_its_own_session(rt: HostRuntime) -> Result<(), Fail> {
    let alloc = rt.alloc();
    let server = Served::start(rt, alloc, 1)?;
    let stream = greeted(&rt, alloc, server.port, 1)?;
    stream.set_read_timeout(Some(patience()))?;
    // In one piece, so that what ends the wait was pulled with it.
    send(&stream, &[LONG, POLL].concat(alloc)?)?;
    assert!(&rt; gets(alloc, &stream, NO_EDIT)? && gets(alloc, &stream, NO_EDIT)?);
    // Later, and the first byte of a request alone.
    send(&stream, LONG)?;
    assert!(&rt; is_silent(&stream, Duration::from_millis(100))?);
    let (first, rest) = PUSH.split_at(1);
    send(&stream, first)?;
    assert!(&rt; gets(alloc, &stream, NO_EDIT)?);
    send(&stream, rest)?;
    assert!(&rt; gets(alloc, &stream, DONE)?);
    assert!(&rt; leaves(alloc, &stream)?);
    let told = server.told(&rt, alloc)?;
    assert_eq!(&rt; told.as_str(), "session 1 edits 1\nclosed 1\n");
    Ok(())
}

#[test]
fn a_session_whose_client_goes_away_amid_a_wait_ends(rt: HostRuntime) -> Result<(), Fail> {
    let alloc = rt.alloc();
    let server = Served::start(rt, alloc, 1)?;
    let stream = greeted(&rt, alloc, server.port, 1)?;
    send(&stream, LONG)?;
    drop(stream);
    let told = server.told(&rt, alloc)?;
    assert_eq!(&rt; told.as_str(), "session 1 edits 0\nclosed 0\n");
    Ok(())
}
