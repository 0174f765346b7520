//! Connections that are held twice.

use std::io;
use std::io::{Read, Write};
use std::net::{Shutdown, TcpStream};

/// A connection that is held twice, to read from it and to write to it.
pub trait Connection: Read + Write + Drop {
    /// Another hold on it, to write.
    fn again(&self) -> io::Result<Self>
    where
        Self: Sized;

    /// Makes it one of a session: reads and writes wait for as long as it takes, and each write goes out at once.
    fn make_ready(&self) -> io::Result<()>;

    /// Whether a read waits for what is to come, or gives up at once with `ErrorKind::WouldBlock`.
    fn set_waiting(&self, waits: bool) -> io::Result<()>;
}

/// One of two holds on a connection. When it is let go, the connection is ended in its direction, whoever else holds
/// it: so it is ended once both are let go.
pub struct TcpHalf {
    stream: TcpStream,
    direction: Shutdown,
}

impl TcpHalf {
    /// The hold that reads.
    pub fn of(stream: TcpStream) -> TcpHalf {
        TcpHalf {
            stream,
            direction: Shutdown::Read,
        }
    }

    pub fn stream(&self) -> &TcpStream {
        &self.stream
    }
}

impl Drop for TcpHalf {
    fn drop(self) {
        let _ = self.stream.shutdown(self.direction);
        let TcpHalf {
            stream: _,
            direction: _,
        } = self;
    }
}

impl Read for TcpHalf {
    fn read(&mut self, piece: &mut [u8]) -> io::Result<usize> {
        self.stream.read(piece)
    }
}

impl Write for TcpHalf {
    fn write(&mut self, bytes: &[u8]) -> io::Result<usize> {
        self.stream.write(bytes)
    }

    fn flush(&mut self) -> io::Result<()> {
        self.stream.flush()
    }
}

impl Connection for TcpHalf {
    fn again(&self) -> io::Result<TcpHalf> {
        let stream = self.stream.try_clone()?;
        Ok(TcpHalf {
            stream,
            direction: Shutdown::Write,
        })
    }

    fn make_ready(&self) -> io::Result<()> {
        self.stream.set_read_timeout(None)?;
        self.stream.set_write_timeout(None)?;
        self.stream.set_nodelay(true)?;
        self.stream.set_nonblocking(false)
    }

    fn set_waiting(&self, waits: bool) -> io::Result<()> {
        self.stream.set_nonblocking(!waits)
    }
}
