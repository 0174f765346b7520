//! What a session writes to.

use std::io;
use std::io::Write;
use std::net::TcpStream;
use web_streams::{SocketWriter, TcpHalf};

/// What a session writes to.
#[derive(Drop)]
pub enum Outgoing {
    /// A connection of frames.
    Frames(TcpStream),
    /// A page's socket.
    Page(SocketWriter<TcpHalf>),
}

impl Write for Outgoing {
    fn write(&mut self, bytes: &[u8]) -> io::Result<usize> {
        match self {
            Outgoing::Frames(stream) => stream.write(bytes),
            Outgoing::Page(writer) => writer.write(bytes),
        }
    }

    fn flush(&mut self) -> io::Result<()> {
        match self {
            Outgoing::Frames(stream) => stream.flush(),
            Outgoing::Page(writer) => writer.flush(),
        }
    }
}
