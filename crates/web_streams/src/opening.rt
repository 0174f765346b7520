//! The opening of a socket.

ghost use Rattle.std.specs.Prelude.{IfOk};
ghost use Rattle.web_streams.specs.Opening.{IsOpen};

use crate::connection::Connection;
use crate::reader::SocketReader;
use crate::writer::SocketWriter;
use std::alloc::Global;
use std::io;
use web_requests::{SeatRequest, welcome_text};

/// Answers the handshake of who asked for a seat, and gives what its session reads from and writes to. What came
/// behind the head is of the socket.
pub fn open_socket<S: Connection>(
    alloc: Global,
    mut connection: S,
    request: &SeatRequest,
    behind: Vec<u8>,
) -> io::Result<(SocketReader<S>, SocketWriter<S>)>
    ensures { IfOk result (λ halves. IsOpen S.contents connection request.now.accept behind.items halves.0 halves.1) }
{
    connection.make_ready()?;
    let welcome = welcome_text(alloc, &request.accept)?;
    connection.write_all(&welcome)?;
    connection.flush()?;
    let other = connection.again()?;
    let reader = SocketReader::new(alloc, connection, behind);
    let writer = SocketWriter::new(alloc, other);
    Ok((reader, writer))
}
