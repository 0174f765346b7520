//! What a session writes to.

ghost use Rattle.std.specs.Prelude.{◌≡◌, ◌<◌, ◌≤◌, ◌^◌, length, IfErr, IfNone, IfOk, IfSome, IsErr, IsTrue};
ghost use Rattle.message_frames.specs.Frames.{frame_text};
ghost use Rattle.web_streams.specs.Telling.{IsNoFrame, message_of};

use std::alloc::{AllocError, Global};
use std::io;
use std::io::{ErrorKind, Write};
use websocket::protocol::frame::coding::{Data, OpCode};
use websocket::protocol::frame::{FrameHeader, write_frame};

/// How many bytes the length of a frame has.
const LENGTH: usize = 4;

/// What a session writes to: each write is of one frame, whose body goes out as one binary message, without its
/// length. Where a message could not be sent whole, no other follows it.
#[derive(Drop)]
pub struct SocketWriter<S> {
    alloc: Global,
    connection: S,
    is_cut: bool,
}

impl<S: Write> SocketWriter<S> {
    ghost use Rattle.std.specs.Prelude.{false};

    /// What is written over a connection whose handshake was answered.
    pub(crate) fn new(alloc: Global, connection: S) -> SocketWriter<S>
        ensures connection { result.connection ≡ connection }
        ensures whole { result.is_cut ≡ false }
    {
        SocketWriter {
            alloc,
            connection,
            is_cut: false,
        }
    }

    /// The connection that it writes to.
    pub fn connection(&self) -> &S
        ensures { result.now ≡ self.now.connection }
    {
        &self.connection
    }
}

impl<S: Write> Write for SocketWriter<S> {
    ghost use Rattle.std.specs.IoError.{error_kind};
    ghost use Rattle.web_streams.specs.Writing.{Refuses, Tells};

    /// Sends the body of a frame as one message. It fails with `InvalidInput` for what is no frame, and with
    /// `BrokenPipe` behind a message that was cut.
    fn write(&mut self, frame: &[u8]) -> io::Result<usize>
        ensures bound { IfOk result (λ count. count ≤ length frame.now) }
        ensures told { IfOk result (λ count. Tells S.contents self.old self.new count frame.now) }
        ensures refused { IfErr result (λ e. Refuses self.old self.new frame.now (error_kind e)) }
        ensures no_frame { IsNoFrame frame.now → IsErr result }
        ensures cut { IsTrue self.old.is_cut → IsErr result }
    {
        if self.is_cut {
            return Err(io::Error::from(ErrorKind::BrokenPipe));
        }
        let Some(body) = body_in(frame) else {
            return Err(io::Error::from(ErrorKind::InvalidInput));
        };
        let message = message_of(self.alloc, body)?;
        match self.connection.write_all(&message) {
            Ok(()) => Ok(frame.len()),
            Err(error) => {
                self.is_cut = true;
                Err(error)
            }
        }
    }

    fn flush(&mut self) -> io::Result<()> {
        self.connection.flush()
    }
}

/// The message of a body: binary, whole, without a mask.
fn message_of(alloc: Global, body: &[u8]) -> Result<Vec<u8>, AllocError>
    ensures { IfOk result (λ message. message.items ≡ message_of body.now) }
{
    let mut message = Vec::new(alloc);
    write_frame(
        &FrameHeader::new(OpCode::Data(Data::Binary), None),
        body,
        &mut message,
    )?;
    Ok(message)
}

/// The body of a frame, if the bytes are just one.
fn body_in(frame: &[u8]) -> Option<&[u8]>
    ensures some { IfSome result (λ body. frame.now ≡ frame_text body.now) }
    ensures short { IfSome result (λ body. length body.now < 2 ^ 32) }
    ensures none { IfNone result (IsNoFrame frame.now) }
{
    let (size, body) = frame.split_first_chunk::<LENGTH>()?;
    let length = u32::try_from(body.len()).ok()?;
    if *size == length.to_be_bytes() {
        Some(body)
    } else {
        None
    }
}
