//! Who asks for a seat.

use std::net::TcpStream;
use web_requests::SeatRequest;

/// A visitor who asks for a seat and is let in, but was not answered so far.
#[derive(Drop)]
pub struct SeatVisitor {
    pub stream: TcpStream,
    pub request: SeatRequest,
    /// What came behind the head: it is of the socket already.
    pub behind: Vec<u8>,
}

/// What gives seats. It is asked on the visitor's own thread, and may wait there.
pub trait Seating {
    /// Gives a visitor a seat, from which the handshake is answered. The visitor comes back where none is left, and is
    /// told so then.
    fn seat(&self, visitor: SeatVisitor) -> Result<(), SeatVisitor>;
}
