//! Each row of the table of routes, by one changed byte or line; heads that come in pieces or never end.

use std::alloc::{AllocError, Global};
use std::io;
use std::io::Read;
use std::test::Fail;
use web_requests::{
    House, Refusal, SeatRequest, Visit, no_seat_text, page_text, refusal_text, wanted, welcome_text,
};
use web_streams::hear_head;

/// A page's request.
const PAGE: &str = "GET / HTTP/1.1\r\nHost: 127.0.0.1:7080\r\nAccept: text/html\r\n\r\n";

/// A socket's request, with the key of RFC 6455, section 1.3.
pub(crate) const BOARD: &str =
    "GET /board?00112233445566778899aabbccddeeff.0123456789abcdef0123456789ABCDEF HTTP/1.1\r\nHost: 127.0.0.1:7080\r\nConnection: keep-alive, Upgrade\r\nUpgrade: websocket\r\nSec-WebSocket-Version: 13\r\nSec-WebSocket-Key: dGhlIHNhbXBsZSBub25jZQ==\r\nOrigin: http://127.0.0.1:7080\r\n\r\n";

pub(crate) const TOKEN: &[u8; 32] = b"00112233445566778899aabbccddeeff";

const KEY: &[u8; 32] = b"0123456789abcdef0123456789ABCDEF";

/// The accept value of RFC 6455, section 1.3.
pub(crate) const ACCEPT: &[u8; 28] = b"s3pPLMBiTxaQ9kYGzzhZRbK+xOo=";

pub(crate) fn house(alloc: Global) -> Result<House, AllocError> {
    Ok(House {
        host: Vec::from_slice(alloc, b"127.0.0.1:7080")?,
        origin: Vec::from_slice(alloc, b"http://127.0.0.1:7080")?,
        token: *TOKEN,
    })
}

/// A text with one part in another's place, which stands in it.
fn changed(alloc: Global, text: &str, old: &str, new: &str) -> Result<String, Fail> {
    let (front, behind) = text.split_once(old).ok_or("nothing to change")?;
    let mut all = String::from_str(alloc, front)?;
    all.push_str(new)?;
    all.push_str(behind)?;
    Ok(all)
}

fn seat() -> Visit {
    Visit::Board(SeatRequest {
        key: *KEY,
        accept: *ACCEPT,
        head_len: BOARD.len(),
    })
}

#[test]
fn who_is_let_in(rt: HostRuntime) -> Result<(), Fail> {
    let alloc = rt.alloc();
    let house = house(alloc)?;
    assert_eq!(&rt; wanted(PAGE.as_bytes(), &house), Visit::Page);
    assert_eq!(&rt; wanted(BOARD.as_bytes(), &house), seat());
    for (old, new) in [
        ("Host: 127", "hOST:\t 127"),
        ("7080\r\nConn", "7080 \t\r\nConn"),
        ("Origin: http", "ORIGIN:HTTP"),
        ("Upgrade: web", "upgrade: WEB"),
        ("\r\n", "\n"),
    ] {
        let head = changed(alloc, BOARD, old, new)?;
        let visit = wanted(head.as_bytes(), &house);
        assert!(&rt; matches!(visit, Visit::Board(_)), "at {new}");
    }
    Ok(())
}

/// A change of the socket's request, and why it is turned away then.
static ROWS: [(&str, &str, Refusal); 36] = [
    ("HTTP/1.1", "HTTP/2.1", Refusal::Malformed),
    ("GET /", "G(T /", Refusal::Malformed),
    ("Host:", "Host", Refusal::Malformed),
    ("Host: 127.0.0.1", "Host: 127.0.0.2", Refusal::Misdirected),
    (
        "Host: 127.0.0.1:7080",
        "Host: 127.0.0.1:7081",
        Refusal::Misdirected,
    ),
    (
        "Host: 127.0.0.1:7080",
        "Host: 127.0.0.1:70800",
        Refusal::Misdirected,
    ),
    (
        "Host: 127.0.0.1:7080",
        "Host: localhost:7080",
        Refusal::Misdirected,
    ),
    ("Host:", "Hosts:", Refusal::Misdirected),
    (
        "Upgrade: w",
        "Host: 127.0.0.1:7080\r\nUpgrade: w",
        Refusal::Misdirected,
    ),
    (
        "Upgrade: w",
        "host: evil.example\r\nUpgrade: w",
        Refusal::Misdirected,
    ),
    ("GET /board", "PUT /board", Refusal::Method),
    ("GET /board", "HEAD /board", Refusal::Method),
    ("GET /board", "get /board", Refusal::Method),
    ("/board?", "/boarD?", Refusal::NotFound),
    ("/board?", "/board", Refusal::NotFound),
    ("/board?", "//board?", Refusal::NotFound),
    ("/board?", "/?", Refusal::NotFound),
    ("Origin: http:", "Origin: https:", Refusal::Forbidden),
    (
        "Origin: http://127.0.0.1:7080",
        "Origin: null",
        Refusal::Forbidden,
    ),
    ("Origin:", "Origim:", Refusal::Forbidden),
    (
        "Upgrade: w",
        "Origin: http://127.0.0.1:7080\r\nUpgrade: w",
        Refusal::Forbidden,
    ),
    ("?00112233", "?10112233", Refusal::Forbidden),
    ("ddeeff.", "ddeefe.", Refusal::Forbidden),
    ("ddeeff.", "ddeefF.", Refusal::Forbidden),
    ("?00112233", "?0112233", Refusal::Forbidden),
    ("ddeeff.", "ddeeff-", Refusal::Malformed),
    ("ddeeff.0", "ddeeff0", Refusal::Malformed),
    ("CDEF HTTP", "CDE HTTP", Refusal::Malformed),
    ("CDEF HTTP", "CDEF0 HTTP", Refusal::Malformed),
    ("CDEF HTTP", "CDEG HTTP", Refusal::Malformed),
    ("HTTP/1.1", "HTTP/1.0", Refusal::Upgrade),
    ("keep-alive, Upgrade", "keep-alive", Refusal::Upgrade),
    (
        "Upgrade: websocket",
        "Upgrade: websockets",
        Refusal::Upgrade,
    ),
    ("Version: 13", "Version: 12", Refusal::Upgrade),
    (
        "Key: dGhlIHNhbXBsZSBub25jZQ==",
        "Key: dGhlIHNhbXBsZSBub25jZQ=",
        Refusal::Upgrade,
    ),
    ("Sec-WebSocket-Key:", "Sec-WebSocket-Kay:", Refusal::Upgrade),
];

#[test]
fn who_is_turned_away(rt: HostRuntime) -> Result<(), Fail> {
    let alloc = rt.alloc();
    let house = house(alloc)?;
    for (old, new, refusal) in ROWS {
        let head = changed(alloc, BOARD, old, new)?;
        let visit = wanted(head.as_bytes(), &house);
        assert_eq!(&rt; visit, Visit::Refused(refusal), "at {new}");
    }
    Ok(())
}

/// Rows that a page's request meets: the first of them that it meets is told.
#[test]
fn the_first_row_is_told(rt: HostRuntime) -> Result<(), Fail> {
    let alloc = rt.alloc();
    let house = house(alloc)?;
    let elsewhere = changed(alloc, PAGE, "Host: 1", "Host: 2")?;
    for (old, new, refusal) in [
        ("GET / ", "PUT /x ", Refusal::Misdirected),
        ("GET / ", "GET /x ", Refusal::Misdirected),
        ("HTTP/1.1", "HTTP/3.1", Refusal::Malformed),
    ] {
        let head = changed(alloc, elsewhere.as_str(), old, new)?;
        assert_eq!(&rt;
            wanted(head.as_bytes(), &house),
            Visit::Refused(refusal),
            "at {new}"
        );
    }
    let put = changed(alloc, PAGE, "GET / ", "PUT /x ")?;
    assert_eq!(&rt;
        wanted(put.as_bytes(), &house),
        Visit::Refused(Refusal::Method)
    );
    let lone = changed(alloc, BOARD, "?00", "?10")?;
    let other = changed(alloc, lone.as_str(), "Origin", "Other")?;
    assert_eq!(&rt;
        wanted(other.as_bytes(), &house),
        Visit::Refused(Refusal::Forbidden)
    );
    let late = changed(alloc, lone.as_str(), "Version: 13", "Version: 8")?;
    assert_eq!(&rt;
        wanted(late.as_bytes(), &house),
        Visit::Refused(Refusal::Forbidden)
    );
    Ok(())
}

/// A request with so many header lines of no meaning beside the page's two.
fn with_lines(alloc: Global, lines: usize) -> Result<String, Fail> {
    let mut more = String::new(alloc);
    for _line in 0..lines {
        more.push_str("\r\nX: y")?;
    }
    changed(
        alloc,
        PAGE,
        "\r\nAccept",
        format!(in alloc; "{more}\r\nAccept")?.as_str(),
    )
}

#[test]
fn lines_of_a_head(rt: HostRuntime) -> Result<(), Fail> {
    let alloc = rt.alloc();
    let house = house(alloc)?;
    let most = with_lines(alloc, 62)?;
    assert_eq!(&rt; wanted(most.as_bytes(), &house), Visit::Page);
    let over = with_lines(alloc, 63)?;
    assert_eq!(&rt;
        wanted(over.as_bytes(), &house),
        Visit::Refused(Refusal::Malformed)
    );
    Ok(())
}

/// Bytes that come so many at a time.
#[derive(Drop)]
struct Pieces<'a> {
    bytes: &'a [u8],
    most: usize,
}

impl Read for Pieces<'_> {
    fn read(&mut self, piece: &mut [u8]) -> io::Result<usize> {
        let count = self.bytes.len().min(piece.len()).min(self.most);
        let (front, rest) = self.bytes.split_at(count);
        piece[..count].copy_from_slice(front);
        self.bytes = rest;
        Ok(count)
    }
}

#[test]
fn heads_in_pieces(rt: HostRuntime) -> Result<(), Fail> {
    let alloc = rt.alloc();
    let house = house(alloc)?;
    for most in [1, 2, 7, 100, 4096] {
        let mut pieces = Pieces {
            bytes: BOARD.as_bytes(),
            most,
        };
        let heard = hear_head(alloc, &mut pieces, &house)?;
        assert_eq!(&rt; heard.visit, seat(), "by {most}");
        assert!(&rt; heard.behind.is_empty(), "by {most}");
    }
    let cut = &BOARD.as_bytes()[..BOARD.len() - 1];
    let mut pieces = Pieces {
        bytes: cut,
        most: 3,
    };
    let heard = hear_head(alloc, &mut pieces, &house)?;
    assert_eq!(&rt; heard.visit, Visit::Waits);
    Ok(())
}

#[test]
fn what_stands_behind_a_head_is_kept(rt: HostRuntime) -> Result<(), Fail> {
    let alloc = rt.alloc();
    let house = house(alloc)?;
    let mut bytes = Vec::from_slice(alloc, BOARD.as_bytes())?;
    bytes.extend_from_slice(b"\x82\x80then")?;
    let mut pieces = Pieces {
        bytes: &bytes,
        most: 4096,
    };
    let heard = hear_head(alloc, &mut pieces, &house)?;
    assert_eq!(&rt; heard.visit, seat());
    assert_eq!(&rt; heard.behind.as_slice(), b"\x82\x80then".as_slice());
    Ok(())
}

/// Heads that have no end: of one line, of many, of empty lines.
#[test]
fn heads_without_an_end(rt: HostRuntime) -> Result<(), Fail> {
    let alloc = rt.alloc();
    let house = house(alloc)?;
    for (front, more) in [("GET /", "a"), ("GET / HTTP/1.1\r\nX: ", "b"), ("", "\r\n")] {
        let mut bytes = Vec::from_slice(alloc, front.as_bytes())?;
        for _more in 0..9000 {
            bytes.extend_from_slice(more.as_bytes())?;
        }
        for most in [1000, 1] {
            let mut pieces = Pieces {
                bytes: &bytes,
                most,
            };
            let heard = hear_head(alloc, &mut pieces, &house)?;
            assert_eq!(&rt; heard.visit, Visit::Refused(Refusal::TooLong), "at {front}");
            assert_eq!(&rt; pieces.bytes.len() + 8192, bytes.len(), "at {front}");
        }
    }
    let many = with_lines(alloc, 1000)?;
    let mut pieces = Pieces {
        bytes: many.as_bytes(),
        most: 100,
    };
    let heard = hear_head(alloc, &mut pieces, &house)?;
    assert_eq!(&rt; heard.visit, Visit::Refused(Refusal::Malformed));
    Ok(())
}

#[test]
fn answers(rt: HostRuntime) -> Result<(), Fail> {
    let alloc = rt.alloc();
    let welcome = welcome_text(alloc, ACCEPT)?;
    assert_eq!(&rt;
        welcome.as_slice(),
        b"HTTP/1.1 101 Switching Protocols\r\nConnection: Upgrade\r\nUpgrade: websocket\r\nSec-WebSocket-Accept: s3pPLMBiTxaQ9kYGzzhZRbK+xOo=\r\n\r\n".as_slice()
    );
    let none = no_seat_text(alloc, ACCEPT)?;
    assert_eq!(&rt; none.len(), welcome.len() + 3);
    assert!(&rt; none.ends_with(b"\r\n\r\n\x82\x01-"));
    let method = refusal_text(alloc, Refusal::Method)?;
    assert_eq!(&rt;
        method.as_slice(),
        b"HTTP/1.1 405 Method Not Allowed\r\nCache-Control: no-store\r\nX-Content-Type-Options: nosniff\r\nReferrer-Policy: no-referrer\r\nCross-Origin-Resource-Policy: same-origin\r\nCross-Origin-Opener-Policy: same-origin\r\nAllow: GET\r\nConnection: close\r\nContent-Type: text/plain; charset=utf-8\r\nContent-Length: 27\r\n\r\nOnly GET is answered here.\n".as_slice()
    );
    let page = page_text(alloc, b"<p>a page</p>", "default-src 'none'")?;
    assert_eq!(&rt;
        page.as_slice(),
        b"HTTP/1.1 200 OK\r\nCache-Control: no-store\r\nX-Content-Type-Options: nosniff\r\nReferrer-Policy: no-referrer\r\nCross-Origin-Resource-Policy: same-origin\r\nCross-Origin-Opener-Policy: same-origin\r\nConnection: close\r\nContent-Type: text/html; charset=utf-8\r\nContent-Security-Policy: default-src 'none'\r\nContent-Length: 13\r\n\r\n<p>a page</p>".as_slice()
    );
    Ok(())
}
