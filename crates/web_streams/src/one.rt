//! What one read of a socket gave.

ghost use Rattle.std.specs.Prelude.{◌≡◌, Some};
ghost use Rattle.tungstenite.specs.Socket.{content_of};
ghost use Rattle.web_streams.specs.One.{GivesOne, one_in, one_of_error};

use bytes::Bytes;
use std::io::{ErrorKind, Read, Write};
use tungstenite::{Error, Message, NoMask, WebSocket};

/// What one read of a socket gave.
#[derive(Drop)]
pub(crate) enum One {
    /// A message with this body.
    Body(Bytes),
    /// Something that has no body, or nothing yet.
    Passed,
    /// Nothing, where the connection does not wait.
    Blocked,
    /// The end, or a fault.
    Failed,
}

/// Reads one message.
pub(crate) fn read_one<S: Read + Write + Drop>(socket: &mut WebSocket<S, NoMask>) -> One
    requires { socket.old.conn.config.max_message_size ≡ Some 16777216 }
    ensures { GivesOne socket.old socket.new result }
{
    match socket.read() {
        Ok(message) => one_of(message),
        Err(error) => one_of_error(&error),
    }
}

/// A message: a binary one has a body; a text, a ping, a pong and a close are passed over.
fn one_of(message: Message) -> One
    ensures { result ≡ one_in (content_of message) }
{
    match message {
        Message::Binary(body) => One::Body(body),
        _ => One::Passed,
    }
}

/// An error: a read that was interrupted is made again.
fn one_of_error(error: &Error) -> One
    ensures { result ≡ one_of_error error.now }
{
    match error {
        Error::Io(cause) => match cause.kind() {
            ErrorKind::Interrupted => One::Passed,
            ErrorKind::WouldBlock => One::Blocked,
            _ => One::Failed,
        },
        _ => One::Failed,
    }
}
