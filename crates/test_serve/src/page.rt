//! A page's side of a socket (RFC 6455).

use crate::clients::connected;
use crate::served::TOKEN;
use std::alloc::Global;
use std::io::{self, Read, Write};
use std::net::{Net, TcpStream};
use std::test::Fail;
use std::time::Duration;

/// The keys of two pages.
pub const FIRST: &str = "0123456789abcdef0123456789abcdef";

pub const SECOND: &str = "fedcba9876543210fedcba9876543210";

/// What kinds of frames there are.
pub const TEXT: u8 = 0x1;

pub const BINARY: u8 = 0x2;

pub const PING: u8 = 0x9;

pub const PONG: u8 = 0xA;

/// By what each frame that a page sends is masked.
const MASK: [u8; 4] = [0x11, 0x22, 0x33, 0x44];

/// The most bytes of a frame here, of which a frame tells the length in one byte.
const MOST: usize = 125;

/// A request for a page's socket. What stands in it are the port and the key, and what a test changes.
#[derive(Clone, Copy)]
pub struct Request<'a> {
    pub host: &'a str,
    pub origin: &'a str,
    pub token: &'a str,
    pub key: &'a str,
}

impl Request<'_> {
    fn text(&self, alloc: Global) -> Result<String, Fail> {
        let Request {
            host,
            origin,
            token,
            key,
        } = self;
        Ok(format!(in alloc;
            "GET /board?{token}.{key} HTTP/1.1\r\nHost: {host}\r\nConnection: Upgrade\r\nUpgrade: websocket\r\nSec-WebSocket-Version: 13\r\nSec-WebSocket-Key: dGhlIHNhbXBsZSBub25jZQ==\r\nOrigin: {origin}\r\n\r\n"
        )?)
    }

    /// A connection to the web port over which this was asked.
    pub fn sent<R: Net<Stream = TcpStream>>(
        &self,
        rt: &R,
        alloc: Global,
        web: u16,
    ) -> Result<TcpStream, Fail> {
        let mut stream = connected(rt, web)?;
        stream.set_read_timeout(Some(Duration::from_secs(30)))?;
        stream.write_all(self.text(alloc)?.as_bytes())?;
        Ok(stream)
    }
}

/// The head of an answer.
pub fn head_of(alloc: Global, stream: &TcpStream) -> Result<Vec<u8>, Fail> {
    let mut from = stream;
    let mut head = Vec::new(alloc);
    for _byte in 0..8192 {
        let mut byte = [0u8; 1];
        from.read_exact(&mut byte)?;
        head.push(byte[0])?;
        if head.ends_with(b"\r\n\r\n") {
            return Ok(head);
        }
    }
    Err(Fail::from("a head without an end"))
}

/// A page's socket.
#[derive(Drop)]
pub struct Page {
    stream: TcpStream,
}

impl Page {
    /// One whose handshake was answered well.
    pub fn opened<R: Net<Stream = TcpStream>>(
        rt: &R,
        alloc: Global,
        web: u16,
        key: &str,
    ) -> Result<Page, Fail> {
        let host = format!(in alloc; "127.0.0.1:{web}")?;
        let origin = format!(in alloc; "http://127.0.0.1:{web}")?;
        let token = String::from_utf8_lossy(alloc, TOKEN)?;
        let request = Request {
            host: host.as_str(),
            origin: origin.as_str(),
            token: token.as_str(),
            key,
        };
        let stream = request.sent(rt, alloc, web)?;
        let head = head_of(alloc, &stream)?;
        if head.starts_with(b"HTTP/1.1 101 Switching Protocols\r\n") {
            Ok(Page { stream })
        } else {
            Err(Fail::from("another answer"))
        }
    }

    /// One whose greeting was replied to with this seat's number.
    pub fn greeted<R: Net<Stream = TcpStream>>(
        rt: &R,
        alloc: Global,
        web: u16,
        key: &str,
        number: u8,
    ) -> Result<Page, Fail> {
        let mut page = Page::opened(rt, alloc, web, key)?;
        page.say(alloc, b"\x01")?;
        let mut reply = *b"\x00\x00\x00\x04/2/3";
        reply[2] = number;
        if page.hears(alloc, BINARY, &reply)? {
            Ok(page)
        } else {
            Err(Fail::from("another greeting"))
        }
    }

    /// Sends the body of a request as one message.
    pub fn say(&mut self, alloc: Global, body: &[u8]) -> Result<(), Fail> {
        self.send(alloc, BINARY, body)
    }

    /// Sends a frame.
    pub fn send(&mut self, alloc: Global, kind: u8, body: &[u8]) -> Result<(), Fail> {
        if body.len() > MOST {
            return Err(Fail::from("a long frame"));
        }
        let mut frame = Vec::from_slice(alloc, &[0x80 | kind, 0x80 | (body.len() as u8)])?;
        frame.extend_from_slice(&MASK)?;
        for (byte, mask) in body.iter().zip(MASK.iter().cycle()) {
            frame.push(*byte ^ *mask)?;
        }
        self.stream.write_all(&frame)?;
        Ok(())
    }

    /// Whether the next frame is this one.
    pub fn hears(&mut self, alloc: Global, kind: u8, body: &[u8]) -> Result<bool, Fail> {
        let mut start = [0u8; 2];
        self.stream.read_exact(&mut start)?;
        if usize::from(start[1]) > MOST {
            return Ok(false);
        }
        let mut got = vec![in alloc; 0u8; usize::from(start[1])]?;
        self.stream.read_exact(&mut got)?;
        Ok(start[0] == 0x80 | kind && got.as_slice() == body)
    }

    /// Whether it was ended, be it by a loss.
    pub fn is_ended(&mut self) -> bool {
        let mut piece = [0u8; 1];
        match self.stream.read(&mut piece) {
            Ok(count) => count == 0,
            Err(error) => error.kind() == io::ErrorKind::ConnectionReset,
        }
    }

    /// Says goodbye; whether that was answered, and the socket ended.
    pub fn leaves(&mut self, alloc: Global) -> Result<bool, Fail> {
        self.say(alloc, b"\x06")?;
        Ok(self.hears(alloc, BINARY, b"\x00")? && self.is_ended())
    }
}
