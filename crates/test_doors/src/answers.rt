//! What visitors are answered.

use crate::door::{BOARD, Door, PAGE};
use std::alloc::Global;
use std::io::{Read, Write};
use std::test::Fail;
use std::time::{Duration, Instant};

/// A text with one part in another's place, which stands in it.
fn changed(alloc: Global, text: &str, old: &str, new: &str) -> Result<String, Fail> {
    let (front, behind) = text.split_once(old).ok_or("nothing to change")?;
    let mut all = String::from_str(alloc, front)?;
    all.push_str(new)?;
    all.push_str(behind)?;
    Ok(all)
}

/// A change of the socket's request, and the first line of the answer.
static LINES: [(&str, &str, &str); 8] = [
    ("HTTP/1.1", "HTTP/2.1", "HTTP/1.1 400 Bad Request"),
    ("ddeeff.", "ddeeff-", "HTTP/1.1 400 Bad Request"),
    ("?0011", "?1011", "HTTP/1.1 403 Forbidden"),
    ("Origin: http:", "Origin: https:", "HTTP/1.1 403 Forbidden"),
    ("/board?", "/bored?", "HTTP/1.1 404 Not Found"),
    ("GET", "PUT", "HTTP/1.1 405 Method Not Allowed"),
    ("Host: 127", "Host: 128", "HTTP/1.1 421 Misdirected Request"),
    (
        "Version: 13",
        "Version: 12",
        "HTTP/1.1 426 Upgrade Required",
    ),
];

#[test]
fn first_lines(rt: HostRuntime) -> Result<(), Fail> {
    let alloc = rt.alloc();
    let door = Door::open(rt, alloc, 1)?;
    for (old, new, line) in LINES {
        let request = changed(alloc, BOARD, old, new)?;
        let answer = door.answer(request.as_bytes(), 10_000)?;
        let (first, _) = answer.split_once("\r\n").ok_or("no answer")?;
        assert_eq!(&rt; first, line, "at {new}");
    }
    let page = door.answer(PAGE.as_bytes(), 10_000)?;
    assert!(&rt; page.starts_with("HTTP/1.1 200 OK\r\n"));
    assert!(&rt; page.ends_with("\r\n\r\n<p>the page</p>"));
    door.visitors.end();
    Ok(())
}

/// What is answered is the same however a head comes.
#[test]
fn byte_by_byte(rt: HostRuntime) -> Result<(), Fail> {
    let alloc = rt.alloc();
    let door = Door::open(rt, alloc, 2)?;
    for request in [PAGE, BOARD] {
        let whole = door.answer(request.as_bytes(), 10_000)?;
        let pieces = door.answer(request.as_bytes(), 1)?;
        assert_eq!(&rt; pieces.as_str(), whole.as_str());
    }
    let cut = &BOARD.as_bytes()[..BOARD.len() - 1];
    let none = door.answer(cut, 100)?;
    assert_eq!(&rt; none.as_str(), "");
    door.visitors.end();
    Ok(())
}

/// A seat is answered at the seat; who finds none left is told over a socket.
#[test]
fn seats(rt: HostRuntime) -> Result<(), Fail> {
    let alloc = rt.alloc();
    let door = Door::open(rt, alloc, 1)?;
    let mut told = Vec::new(alloc);
    for _visit in 0..2 {
        let mut browser = door.comes()?;
        browser.write_all(BOARD.as_bytes())?;
        browser.shutdown(std::net::Shutdown::Write)?;
        let mut all = Vec::new(alloc);
        browser.read_to_end(&mut all)?;
        told.push(all)?;
    }
    let [first, second] = told.as_slice() else {
        return Err("not two".into());
    };
    assert!(&rt; first.starts_with(b"HTTP/1.1 101 Switching Protocols\r\n"));
    assert!(&rt; first.ends_with(b"s3pPLMBiTxaQ9kYGzzhZRbK+xOo=\r\n\r\n"));
    let (front, behind) = second.split_at(first.len().min(second.len()));
    assert_eq!(&rt; front, first.as_slice());
    assert_eq!(&rt; behind, b"\x82\x01\x2d".as_slice());
    door.visitors.end();
    Ok(())
}

/// The last words are heard though more was sent than is read.
#[test]
fn too_long(rt: HostRuntime) -> Result<(), Fail> {
    let alloc = rt.alloc();
    let door = Door::open(rt, alloc, 1)?;
    let mut request = Vec::from_slice(alloc, b"GET /")?;
    for _more in 0..20_000 {
        request.push(b'a')?;
    }
    let answer = door.answer(&request, 1000)?;
    assert!(&rt; answer.starts_with("HTTP/1.1 431 Request Header Fields Too Large\r\n"));
    door.visitors.end();
    Ok(())
}

/// Who has not said what they want within ten seconds is let go, and is told nothing.
#[test]
fn ten_seconds(rt: HostRuntime) -> Result<(), Fail> {
    let alloc = rt.alloc();
    let door = Door::open(rt, alloc, 1)?;
    let begun = Instant::now(&rt)?;
    let mut browser = door.comes()?;
    browser.write_all(b"GET / HTTP/1.1\r\nHo")?;
    let mut all = Vec::new(alloc);
    browser.read_to_end(&mut all)?;
    assert!(&rt; all.is_empty());
    let took = begun.elapsed(&rt)?;
    assert!(&rt; took >= Duration::from_secs(9) && took < Duration::from_secs(29));
    door.visitors.end();
    Ok(())
}
