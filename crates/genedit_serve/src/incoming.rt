//! What a session reads from.

use std::alloc::{AllocError, Global};
use std::io;
use std::io::{ErrorKind, Read};
use std::net::TcpStream;
use std::sync::{Arc, Mutex};
use web_streams::{Came, SocketReader, TcpHalf};

/// What a session reads from.
#[derive(Drop)]
pub enum Incoming {
    /// A connection of frames.
    Frames(TcpStream),
    /// A page's socket.
    Page(PageReader),
}

impl Read for Incoming {
    fn read(&mut self, piece: &mut [u8]) -> io::Result<usize> {
        match self {
            Incoming::Frames(stream) => stream.read(piece),
            Incoming::Page(reader) => reader.read(piece),
        }
    }
}

/// The messages of a page's socket, for the session that reads them and for what it waits by. Both are on the seat's own
/// thread, so that its lock is always free.
#[derive(Drop)]
pub struct PageReader {
    shared: Arc<Mutex<SocketReader<TcpHalf>>, Global>,
}

impl PageReader {
    pub(crate) fn new(
        alloc: Global,
        reader: SocketReader<TcpHalf>,
    ) -> Result<PageReader, AllocError> {
        match Arc::new(alloc, Mutex::new(reader)) {
            Ok(shared) => Ok(PageReader { shared }),
            Err(_) => Err(AllocError),
        }
    }

    /// The same.
    pub(crate) fn shared(&self) -> Result<PageReader, AllocError> {
        Ok(PageReader {
            shared: Arc::try_clone(&self.shared)?,
        })
    }

    /// Whether there is something to read: bytes of a whole message, or the end.
    pub(crate) fn has_come(&self) -> bool {
        match self.shared.try_lock() {
            Some(mut reader) => reader.has_come() != Came::Nothing,
            None => true,
        }
    }
}

impl Read for PageReader {
    fn read(&mut self, piece: &mut [u8]) -> io::Result<usize> {
        match self.shared.try_lock() {
            Some(mut reader) => reader.read(piece),
            None => Err(io::Error::from(ErrorKind::WouldBlock)),
        }
    }
}
