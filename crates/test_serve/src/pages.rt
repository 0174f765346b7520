//! Pages beside connections: their sockets are sessions at the seats of the same board.

use crate::clients::{BYE, EDIT, POLL, PUSH, connected, gets, greeted, is_ended, send};
use crate::page::{BINARY, FIRST, PING, PONG, Page, Request, SECOND, TEXT, head_of};
use crate::served::{Opened, Served, address_of, web_address};
use genedit_serve::{Address, listen};
use std::alloc::Global;
use std::net::TcpStream;
use std::test::Fail;
use std::thread;
use std::time::{Duration, Instant};

/// What is said to a connection that finds no seat.
const NO_SEAT: &[u8] = b"\x00\x00\x00\x01\x2d";

const DONE: &[u8] = b"\x00\x00\x00\x01\x00";

/// The same edit, drawn from another seat with counter 2.
fn push_of(seat: u8) -> [u8; 41] {
    let mut push = [0u8; 41];
    push.copy_from_slice(PUSH);
    push[24] = 2;
    push[26] = seat;
    push
}

/// Whether a poll of a connection is replied to with two edits, of which the second is the text of this push.
fn polls_both(alloc: Global, stream: &TcpStream, push: &[u8; 41]) -> Result<bool, Fail> {
    send(stream, POLL)?;
    let counted = gets(alloc, stream, b"\x00\x00\x00\x05\x00\x00\x00\x00\x02")?;
    let first = gets(alloc, stream, EDIT)?;
    let second = gets(alloc, stream, b"\x00\x00\x00\x24")? && gets(alloc, stream, &push[5..])?;
    Ok(counted && first && second)
}

/// Whether a connection leaves as it should.
fn leaves(alloc: Global, stream: &TcpStream) -> Result<bool, Fail> {
    send(stream, BYE)?;
    Ok(gets(alloc, stream, DONE)? && is_ended(stream)?)
}

#[test]
fn a_page_and_a_connection_draw_together(rt: HostRuntime) -> Result<(), Fail> {
    let alloc = rt.alloc();
    let server = Opened::start(rt, alloc, 2, true)?;
    let connection = greeted(&rt, alloc, server.served.port, 1)?;
    let mut page = Page::greeted(&rt, alloc, server.served.web, FIRST, 2)?;
    send(&connection, PUSH)?;
    assert!(&rt; gets(alloc, &connection, DONE)?);
    page.say(alloc, b"\x03")?;
    assert!(&rt; page.hears(alloc, BINARY, b"\x00\x00\x00\x00\x01")?);
    assert!(&rt; page.hears(alloc, BINARY, &EDIT[4..])?);
    let push = push_of(2);
    page.say(alloc, &push[4..])?;
    assert!(&rt; page.hears(alloc, BINARY, b"\x00")?);
    assert!(&rt; polls_both(alloc, &connection, &push)?);
    assert!(&rt; page.leaves(alloc)? && leaves(alloc, &connection)?);
    assert_eq!(&rt;
        server.told(&rt, alloc)?.as_str(),
        "session 1 edits 1\nsession 2 edits 1\nclosed 2\n"
    );
    Ok(())
}

#[test]
fn a_second_socket_of_a_page_has_the_seat_next(rt: HostRuntime) -> Result<(), Fail> {
    let alloc = rt.alloc();
    let server = Opened::start(rt, alloc, 2, false)?;
    let web = server.served.web;
    let mut first = Page::greeted(&rt, alloc, web, FIRST, 1)?;
    let mut other = Page::greeted(&rt, alloc, web, SECOND, 2)?;
    for _socket in 0..3 {
        let next = Page::greeted(&rt, alloc, web, FIRST, 1)?;
        assert!(&rt; first.is_ended());
        first = next;
    }
    assert!(&rt; first.leaves(alloc)? && other.leaves(alloc)?);
    assert_eq!(&rt;
        server.told(&rt, alloc)?.as_str(),
        "session 1 edits 0\nsession 2 edits 0\nclosed 0\n"
    );
    Ok(())
}

#[test]
fn the_seat_of_a_page_that_left_is_kept_for_it(rt: HostRuntime) -> Result<(), Fail> {
    let alloc = rt.alloc();
    let server = Opened::start(rt, alloc, 1, true)?;
    let web = server.served.web;
    drop(Page::greeted(&rt, alloc, web, FIRST, 1)?);
    let connection = connected(&rt, server.served.port)?;
    send(&connection, POLL)?;
    assert!(&rt; gets(alloc, &connection, NO_SEAT)? && is_ended(&connection)?);
    let mut stranger = Page::opened(&rt, alloc, web, SECOND)?;
    assert!(&rt; stranger.hears(alloc, BINARY, b"\x2d")? && stranger.is_ended());
    let mut page = Page::greeted(&rt, alloc, web, FIRST, 1)?;
    assert!(&rt; page.leaves(alloc)?);
    assert_eq!(&rt;
        server.told(&rt, alloc)?.as_str(),
        "session 1 edits 0\nclosed 0\n"
    );
    Ok(())
}

#[test]
fn a_connection_that_waits_has_the_seat_that_a_connection_left(
    rt: HostRuntime,
) -> Result<(), Fail> {
    let alloc = rt.alloc();
    let server = Opened::start(rt, alloc, 1, true)?;
    let first = greeted(&rt, alloc, server.served.port, 1)?;
    let second = connected(&rt, server.served.port)?;
    send(&second, BYE)?;
    assert!(&rt; leaves(alloc, &first)?);
    assert!(&rt; gets(alloc, &second, DONE)? && is_ended(&second)?);
    let mut page = Page::greeted(&rt, alloc, server.served.web, FIRST, 1)?;
    assert!(&rt; page.leaves(alloc)?);
    assert_eq!(&rt;
        server.told(&rt, alloc)?.as_str(),
        "session 1 edits 0\nclosed 0\n"
    );
    Ok(())
}

#[test]
fn a_text_and_a_ping_are_no_bytes_of_a_session(rt: HostRuntime) -> Result<(), Fail> {
    let alloc = rt.alloc();
    let server = Opened::start(rt, alloc, 1, false)?;
    let mut page = Page::greeted(&rt, alloc, server.served.web, FIRST, 1)?;
    let begun = Instant::now(&rt)?;
    page.say(alloc, b"\x08\x00\x00\x03\xe8")?;
    page.send(alloc, TEXT, b"a text")?;
    page.send(alloc, PING, b"a ping")?;
    assert!(&rt; page.hears(alloc, PONG, b"a ping")?);
    assert!(&rt; page.hears(alloc, BINARY, b"\x00\x00\x00\x00\x00")?);
    assert!(&rt; begun.elapsed(&rt)? >= Duration::from_secs(1));
    // A wait of a minute, which a message behind it ends: one that came with it, and one that came later.
    page.say(alloc, b"\x08\x00\x00\xea\x60")?;
    page.say(alloc, b"\x08\x00\x00\xea\x60")?;
    assert!(&rt; page.hears(alloc, BINARY, b"\x00\x00\x00\x00\x00")?);
    page.send(alloc, PING, b"")?;
    assert!(&rt; page.hears(alloc, PONG, b"")?);
    page.say(alloc, b"\x06")?;
    assert!(&rt; page.hears(alloc, BINARY, b"\x00\x00\x00\x00\x00")?);
    assert!(&rt; page.hears(alloc, BINARY, b"\x00")? && page.is_ended());
    assert_eq!(&rt;
        server.told(&rt, alloc)?.as_str(),
        "session 1 edits 0\nclosed 0\n"
    );
    Ok(())
}

#[test]
fn who_is_not_let_in_takes_no_seat(rt: HostRuntime) -> Result<(), Fail> {
    let alloc = rt.alloc();
    let server = Opened::start(rt, alloc, 1, false)?;
    let web = server.served.web;
    let host = format!(in alloc; "127.0.0.1:{web}")?;
    let origin = format!(in alloc; "http://127.0.0.1:{web}")?;
    let well = Request {
        host: host.as_str(),
        origin: origin.as_str(),
        token: "00112233445566778899aabbccddeeff",
        key: FIRST,
    };
    let token = Request {
        token: "10112233445566778899aabbccddeeff",
        ..well
    };
    let host = Request {
        host: "example.org",
        ..well
    };
    let origin = Request {
        origin: "http://example.org",
        ..well
    };
    for (request, line) in [
        (token, "HTTP/1.1 403 Forbidden\r\n"),
        (host, "HTTP/1.1 421 Misdirected Request\r\n"),
        (origin, "HTTP/1.1 403 Forbidden\r\n"),
    ] {
        let stream = request.sent(&rt, alloc, web)?;
        assert!(&rt; head_of(alloc, &stream)?.starts_with(line.as_bytes()));
    }
    let mut page = Page::greeted(&rt, alloc, web, SECOND, 1)?;
    assert!(&rt; page.leaves(alloc)?);
    assert_eq!(&rt;
        server.told(&rt, alloc)?.as_str(),
        "session 1 edits 0\nclosed 0\n"
    );
    Ok(())
}

#[test]
fn a_server_where_nobody_sits_ends_by_itself(rt: HostRuntime) -> Result<(), Fail> {
    let alloc = rt.alloc();
    let address = Address {
        until_idle: Some(Duration::from_millis(500)),
        ..address_of(None, Some(web_address(&rt, alloc)?))
    };
    let server = Served::start_at(rt, alloc, 1, address)?;
    let mut page = Page::greeted(&rt, alloc, server.web, FIRST, 1)?;
    // Somebody sits there for longer than that.
    thread::sleep(&rt, Duration::from_millis(1500));
    page.say(alloc, &PUSH[4..])?;
    assert!(&rt; page.hears(alloc, BINARY, b"\x00")?);
    drop(page);
    assert_eq!(&rt;
        server.told(&rt, alloc)?.as_str(),
        "session 1 edits 1\nclosed 1\n"
    );
    Ok(())
}

#[test]
fn a_server_to_which_nobody_comes_ends_by_itself(rt: HostRuntime) -> Result<(), Fail> {
    let alloc = rt.alloc();
    let address = Address {
        until_idle: Some(Duration::from_millis(200)),
        ..address_of(None, Some(web_address(&rt, alloc)?))
    };
    let begun = Instant::now(&rt)?;
    let server = Served::start_at(rt, alloc, 2, address)?;
    assert_eq!(&rt;
        server.told(&rt, alloc)?.as_str(),
        "session 1 edits 0\nsession 2 edits 0\nclosed 0\n"
    );
    assert!(&rt; begun.elapsed(&rt)? >= Duration::from_millis(200));
    Ok(())
}

#[test]
fn a_server_of_connections_that_have_left_ends_by_itself(rt: HostRuntime) -> Result<(), Fail> {
    let alloc = rt.alloc();
    let address = Address {
        until_idle: Some(Duration::from_millis(500)),
        ..address_of(Some(listen(&rt, 0)?), None)
    };
    let server = Served::start_at(rt, alloc, 2, address)?;
    let connection = greeted(&rt, alloc, server.port, 1)?;
    thread::sleep(&rt, Duration::from_millis(1000));
    assert!(&rt; leaves(alloc, &connection)?);
    assert_eq!(&rt;
        server.told(&rt, alloc)?.as_str(),
        "session 1 edits 0\nsession 2 edits 0\nclosed 0\n"
    );
    Ok(())
}
