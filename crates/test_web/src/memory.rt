//! Connections in memory.

use std::alloc::{AllocError, Global};
use std::cell::Cell;
use std::io;
use std::io::{ErrorKind, Read, Write};
use web_streams::Connection;
use websocket::protocol::frame::coding::{Control, Data, OpCode};
use websocket::protocol::frame::{FrameHeader, write_frame};

/// What comes over a connection.
#[derive(Drop)]
pub(crate) enum Arrival {
    Bytes(Vec<u8>),
    /// Nothing for a while.
    Pause,
    /// The system interrupts a read.
    Interrupt,
    /// The connection fails.
    Fault,
}

/// A connection over which this comes, and at last an end. It keeps what is told over it, which it takes so many
/// bytes of at most.
#[derive(Drop)]
pub(crate) struct Memory {
    alloc: Global,
    arrivals: Vec<Arrival>,
    /// How many bytes of the arrival that is next were read.
    at: usize,
    next: usize,
    pub(crate) told: Vec<u8>,
    pub(crate) takes: usize,
    waits: Cell<bool>,
}

impl Memory {
    pub(crate) fn new(alloc: Global, arrivals: Vec<Arrival>) -> Memory {
        Memory {
            alloc,
            arrivals,
            at: 0,
            next: 0,
            told: Vec::new(alloc),
            takes: usize::MAX,
            waits: Cell::new(true),
        }
    }

    fn pass(&mut self) {
        self.next = self.next.saturating_add(1);
        self.at = 0;
    }
}

impl Read for Memory {
    fn read(&mut self, piece: &mut [u8]) -> io::Result<usize> {
        for _arrival in 0..u64::MAX {
            match self.arrivals.get(self.next) {
                None => return Ok(0),
                Some(Arrival::Fault) => return Err(io::Error::from(ErrorKind::ConnectionReset)),
                Some(Arrival::Interrupt) => {
                    self.pass();
                    return Err(io::Error::from(ErrorKind::Interrupted));
                }
                Some(Arrival::Pause) => {
                    self.pass();
                    if !self.waits.get() {
                        return Err(io::Error::from(ErrorKind::WouldBlock));
                    }
                }
                Some(Arrival::Bytes(bytes)) => {
                    let left = bytes.get(self.at..).unwrap_or(&[]);
                    let count = left.len().min(piece.len());
                    piece[..count].copy_from_slice(&left[..count]);
                    if count > 0 {
                        self.at = self.at.saturating_add(count);
                        return Ok(count);
                    }
                    self.pass();
                }
            }
        }
        Ok(0)
    }
}

impl Write for Memory {
    fn write(&mut self, bytes: &[u8]) -> io::Result<usize> {
        let room = self.takes.saturating_sub(self.told.len());
        if room == 0 {
            return Err(io::Error::from(ErrorKind::BrokenPipe));
        }
        let count = room.min(bytes.len());
        self.told.extend_from_slice(&bytes[..count])?;
        Ok(count)
    }

    fn flush(&mut self) -> io::Result<()> {
        Ok(())
    }
}

impl Connection for Memory {
    fn again(&self) -> io::Result<Memory> {
        let mut again = Memory::new(self.alloc, Vec::new(self.alloc));
        again.takes = self.takes;
        Ok(again)
    }

    fn make_ready(&self) -> io::Result<()> {
        self.waits.set(true);
        Ok(())
    }

    fn set_waiting(&self, waits: bool) -> io::Result<()> {
        self.waits.set(waits);
        Ok(())
    }
}

/// Kinds of frames.
pub(crate) const BINARY: OpCode = OpCode::Data(Data::Binary);

pub(crate) const TEXT: OpCode = OpCode::Data(Data::Text);

pub(crate) const CONTINUE: OpCode = OpCode::Data(Data::Continue);

pub(crate) const PING: OpCode = OpCode::Control(Control::Ping);

pub(crate) const CLOSE: OpCode = OpCode::Control(Control::Close);

/// Adds a browser's frame.
pub(crate) fn put(
    bytes: &mut Vec<u8>,
    opcode: OpCode,
    is_last: bool,
    payload: &[u8],
) -> Result<(), AllocError> {
    let mut header = FrameHeader::new(opcode, Some([7, 1, 200, 90]));
    header.is_final = is_last;
    write_frame(&header, payload, bytes)
}
