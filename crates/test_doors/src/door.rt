//! A door to try.

use std::alloc::{AllocError, Global};
use std::io;
use std::io::{Read, Write};
use std::net::{Ipv4Addr, Net, Shutdown, SocketAddr, TcpListener, TcpStream};
use std::sync::Wait;
use std::sync::atomic::{AtomicUsize, Ordering};
use std::test::Fail;
use std::thread::Threads;
use std::time::{Clock, Duration};
use web_doors::{Front, SeatVisitor, Seating, Visitors};
use web_requests::House;
use web_streams::{TcpHalf, open_socket};

/// A page's request.
pub(crate) const PAGE: &str = "GET / HTTP/1.1\r\nHost: 127.0.0.1:7080\r\nAccept: text/html\r\n\r\n";

/// A socket's request, with the key of RFC 6455, section 1.3.
pub(crate) const BOARD: &str =
    "GET /board?00112233445566778899aabbccddeeff.0123456789abcdef0123456789ABCDEF HTTP/1.1\r\nHost: 127.0.0.1:7080\r\nConnection: keep-alive, Upgrade\r\nUpgrade: websocket\r\nSec-WebSocket-Version: 13\r\nSec-WebSocket-Key: dGhlIHNhbXBsZSBub25jZQ==\r\nOrigin: http://127.0.0.1:7080\r\n\r\n";

/// What visitors find.
pub(crate) fn front(alloc: Global) -> Result<Front, AllocError> {
    let house = House {
        host: Vec::from_slice(alloc, b"127.0.0.1:7080")?,
        origin: Vec::from_slice(alloc, b"http://127.0.0.1:7080")?,
        token: *b"00112233445566778899aabbccddeeff",
    };
    Ok(Front {
        house,
        page: "<p>the page</p>",
        policy: "default-src 'none'",
    })
}

/// Seats of which so many are left. A socket ends as soon as it is opened.
#[derive(Drop)]
pub(crate) struct Seats {
    alloc: Global,
    left: AtomicUsize,
}

impl Seating for Seats {
    fn seat(&self, visitor: SeatVisitor) -> Result<(), SeatVisitor> {
        let left = self.left.load(Ordering::SeqCst);
        if left == 0 {
            return Err(visitor);
        }
        self.left.store(left - 1, Ordering::SeqCst);
        let SeatVisitor {
            stream,
            request,
            behind,
        } = visitor;
        let _ = open_socket(self.alloc, TcpHalf::of(stream), &request, behind);
        Ok(())
    }
}

/// A listener, and those who come to it.
#[derive(Drop)]
pub(crate) struct Door<R> {
    rt: R,
    alloc: Global,
    listener: TcpListener,
    pub(crate) visitors: Visitors<R, Seats>,
}

impl<
    R: Net<Listener = TcpListener, Stream = TcpStream>
        + Threads
        + Wait
        + Clock
        + Copy
        + Drop
        + Send
        + Sync
        + 'static,
> Door<R> {
    /// One of a board with so many seats left.
    pub(crate) fn open(rt: R, alloc: Global, seats: usize) -> Result<Door<R>, Fail> {
        let seats = Seats {
            alloc,
            left: AtomicUsize::new(seats),
        };
        Ok(Door {
            rt,
            alloc,
            listener: TcpListener::bind(&rt, SocketAddr::from((Ipv4Addr::LOCALHOST, 0)))?,
            visitors: Visitors::new(rt, alloc, front(alloc)?, seats)?,
        })
    }

    /// A browser that has come to it and said nothing so far.
    pub(crate) fn comes(&self) -> io::Result<TcpStream> {
        let browser = TcpStream::connect(&self.rt, self.listener.local_addr()?)?;
        let (server, _) = self.listener.accept()?;
        self.visitors.receive(server);
        browser.set_read_timeout(Some(Duration::from_secs(20)))?;
        browser.set_nodelay(true)?;
        Ok(browser)
    }

    /// All that a browser is answered that says this, so many bytes at a time, and then no more.
    pub(crate) fn answer(&self, request: &[u8], most: usize) -> io::Result<String> {
        let mut browser = self.comes()?;
        for piece in request.chunks(most.max(1)) {
            browser.write_all(piece)?;
        }
        browser.shutdown(Shutdown::Write)?;
        let mut all = Vec::new(self.alloc);
        browser.read_to_end(&mut all)?;
        Ok(String::from_utf8_lossy(self.alloc, &all)?)
    }
}
