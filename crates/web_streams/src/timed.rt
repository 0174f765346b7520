//! A connection with a time by which it has to be done with.

use std::io;
use std::io::{ErrorKind, Read, Write};
use std::net::{Shutdown, TcpStream};
use std::time::{Clock, Instant};

/// How many bytes that a visitor still sends are let run out behind the last words, at most.
const LAST: usize = 65_536;

/// How many of these are read at once.
const PIECE: usize = 2048;

/// A connection that is read and written until a time, from which on each call fails.
#[derive(Drop)]
pub struct Timed<'a, C> {
    stream: &'a TcpStream,
    clock: &'a C,
    end: Instant,
}

impl<'a, C: Clock> Timed<'a, C> {
    pub fn new(stream: &'a TcpStream, clock: &'a C, end: Instant) -> Timed<'a, C> {
        Timed { stream, clock, end }
    }

    /// Says the last words, and lets what the other side still sends run out: a connection that is closed with bytes
    /// unread is torn down, and the words with it (RFC 9112, section 9.6).
    pub fn say_last(&mut self, words: &[u8]) -> io::Result<()> {
        self.write_all(words)?;
        self.stream.shutdown(Shutdown::Write)?;
        let mut piece = [0; PIECE];
        for _ in 0..LAST / PIECE {
            if self.read(&mut piece)? == 0 {
                return Ok(());
            }
        }
        Ok(())
    }

    /// Lets a read or a write wait up to the end and no longer.
    fn hurry(&self) -> io::Result<()> {
        let now = Instant::now(self.clock)?;
        let left = self.end.saturating_duration_since(now);
        if left.is_zero() {
            return Err(io::Error::from(ErrorKind::TimedOut));
        }
        self.stream.set_read_timeout(Some(left))?;
        self.stream.set_write_timeout(Some(left))
    }
}

impl<C: Clock> Read for Timed<'_, C> {
    fn read(&mut self, piece: &mut [u8]) -> io::Result<usize> {
        self.hurry()?;
        let mut stream = self.stream;
        stream.read(piece)
    }
}

impl<C: Clock> Write for Timed<'_, C> {
    fn write(&mut self, bytes: &[u8]) -> io::Result<usize> {
        self.hurry()?;
        let mut stream = self.stream;
        stream.write(bytes)
    }

    fn flush(&mut self) -> io::Result<()> {
        Ok(())
    }
}
