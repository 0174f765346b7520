//! Visits in memory, and connections that are lost amid them.

use crate::door::{BOARD, PAGE, front};
use devices::WriteSink;
use std::io;
use std::io::{ErrorKind, Read, Write};
use std::test::Fail;
use web_doors::{VisitFault, Visited, tell_no_seat, visit};
use web_requests::SeatRequest;

/// A connection that gives these bytes, and is lost behind them. It takes none.
#[derive(Drop)]
struct Lost<'a> {
    left: &'a [u8],
}

impl Read for Lost<'_> {
    fn read(&mut self, piece: &mut [u8]) -> io::Result<usize> {
        let count = self.left.len().min(piece.len());
        if count == 0 {
            return Err(io::Error::from(ErrorKind::ConnectionReset));
        }
        let (front, rest) = self.left.split_at(count);
        piece[..count].copy_from_slice(front);
        self.left = rest;
        Ok(count)
    }
}

impl Write for Lost<'_> {
    fn write(&mut self, _bytes: &[u8]) -> io::Result<usize> {
        Err(io::Error::from(ErrorKind::ConnectionReset))
    }

    fn flush(&mut self) -> io::Result<()> {
        Ok(())
    }
}

/// What is pushed, and how often.
#[test]
fn pushes(rt: HostRuntime) -> Result<(), Fail> {
    let alloc = rt.alloc();
    let front = front(alloc)?;
    let mut sink = WriteSink::new(Vec::new(alloc));
    let mut page = PAGE.as_bytes();
    let told = visit(alloc, &mut page, &mut sink, &front);
    assert!(&rt; matches!(told, Ok(Visited::Told)));
    assert_eq!(&rt; sink.pushes(), 1);
    let mut cut = &BOARD.as_bytes()[..100];
    let gone = visit(alloc, &mut cut, &mut sink, &front);
    assert!(&rt; matches!(gone, Ok(Visited::Gone)));
    let mut board = BOARD.as_bytes();
    let seat = visit(alloc, &mut board, &mut sink, &front);
    assert!(&rt; matches!(seat, Ok(Visited::Seat(..))));
    assert_eq!(&rt; sink.pushes(), 1);
    Ok(())
}

#[test]
fn lost_connections(rt: HostRuntime) -> Result<(), Fail> {
    let alloc = rt.alloc();
    let front = front(alloc)?;
    let mut sink = WriteSink::new(Lost { left: &[] });
    let mut cut = Lost {
        left: &PAGE.as_bytes()[..20],
    };
    let unheard = visit(alloc, &mut cut, &mut sink, &front);
    assert!(&rt; matches!(unheard, Err(VisitFault::Unheard)));
    assert_eq!(&rt; sink.pushes(), 0);
    let mut whole = Lost {
        left: PAGE.as_bytes(),
    };
    let untold = visit(alloc, &mut whole, &mut sink, &front);
    assert!(&rt; matches!(untold, Err(VisitFault::Untold)));
    assert_eq!(&rt; (sink.pushes(), sink.failures()), (1, 1));
    let request = SeatRequest {
        key: *b"0123456789abcdef0123456789ABCDEF",
        accept: *b"s3pPLMBiTxaQ9kYGzzhZRbK+xOo=",
        head_len: 0,
    };
    let none = tell_no_seat(alloc, &mut sink, &request);
    assert!(&rt; matches!(none, Err(VisitFault::Untold)));
    Ok(())
}
