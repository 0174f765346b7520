//! What a session reads from.

ghost use Rattle.std.specs.Prelude.{◌≡◌, ◌≤◌, [], length, false, Some, IfErr, IfOk, OnErr};

use crate::came::Came;
use crate::connection::Connection;
use crate::frame::FrameInHand;
use crate::one::{One, read_one};
use std::alloc::Global;
use std::io;
use std::io::{ErrorKind, Read, Write};
use tungstenite::{NoMask, Role, WebSocket, WebSocketConfig};

/// The most bytes of a message: those of a frame's body, 2^24.
const MOST: usize = 16_777_216;

/// How many bytes are read of the connection at once, and how many may wait to be sent before a ping is left
/// unread.
const PIECE: usize = 8192;

/// What a session reads from: the binary messages of a socket, each behind its length, one after another. A text
/// is passed over, a ping is answered. It ends between two messages, however the socket ends.
#[derive(Drop)]
pub struct SocketReader<S> {
    socket: WebSocket<S, NoMask>,
    frame: FrameInHand,
    is_over: bool,
    ghost limited: { is_over ≡ false → socket.conn.config.max_message_size ≡ Some 16777216 },
}

impl<S: Connection> SocketReader<S> {
    ghost use Rattle.web_streams.specs.Frame.{rest_of};
    ghost use Rattle.web_streams.specs.Hearing.{Comes, Gives, Hears, HearsOne, IsOpened, Stays, told_of};

    /// What is read over a connection whose handshake was answered; these bytes of it were read already.
    pub(crate) fn new(alloc: Global, connection: S, behind: Vec<u8>) -> SocketReader<S>
        ensures { IsOpened connection behind.items result }
    {
        let limits = WebSocketConfig::default()
            .read_buffer_size(PIECE)
            .max_write_buffer_size(PIECE)
            .max_message_size(Some(MOST))
            .max_frame_size(Some(MOST));
        SocketReader {
            socket: WebSocket::from_partially_read(
                alloc,
                connection,
                NoMask,
                behind,
                Role::Server,
                Some(limits),
            ),
            frame: FrameInHand::none(),
            is_over: false,
        }
    }

    /// Whether a message has come of which bytes are left to read, or an end, without waiting for either. Pings that
    /// have come are answered.
    pub fn has_come(&mut self) -> Came
        ensures { Comes self.old self.new result }
    {
        if !self.frame.is_given() {
            return Came::Message;
        }
        self.set_waiting(false);
        let came = self.hear();
        self.set_waiting(true);
        self.flush();
        self.told(came)
    }

    /// The connection that it reads, as for who waits for what comes over it.
    pub fn connection(&self) -> &S
        ensures { result.now ≡ self.now.socket.stream }
    {
        self.socket.get_ref()
    }

    /// Waits until a message is in hand of which bytes are left to give.
    fn wait(&mut self) -> Came
        ensures { Comes self.old self.new result }
    {
        if !self.frame.is_given() {
            return Came::Message;
        }
        self.hear()
    }

    /// Has reads of the connection wait or not. Where that fails, so has the connection.
    fn set_waiting(&mut self, waits: bool)
        ensures { Stays self.old self.new }
    {
        if self.socket.get_ref().set_waiting(waits).is_err() {
            self.is_over = true;
        }
    }

    /// Sends what of an answer to a ping could not be sent at once, before anything else is sent.
    fn flush(&mut self)
        ensures { Stays self.old self.new }
    {
        if self.socket.flush().is_err() {
            self.is_over = true;
        }
    }

    /// What came, if the reader is over by now.
    fn told(&self, came: Came) -> Came
        ensures { result ≡ told_of self.now.is_over came }
    {
        match came {
            Came::Nothing if self.is_over => Came::End,
            came => came,
        }
    }

    /// Gives of the frame in hand.
    fn give(&mut self, piece: &mut [u8]) -> usize
        ensures within { result ≤ length piece.new }
        ensures gives { Gives self.old self.new result piece.new }
    {
        self.frame.give(piece)
    }

    /// Reads messages up to one that has a body, which is in hand then; where the connection does not wait, no further
    /// than what has come.
    fn hear(&mut self) -> Came
        requires { rest_of self.old.frame ≡ [] }
        ensures { Hears self.old self.new result }
    {
        if self.is_over {
            return Came::End;
        }
        for _message in 0..u64::MAX {
            match self.hear_one() {
                Some(came) => return came,
                None => {}
            }
        }
        Came::Nothing
    }

    /// Reads one message. None if it has no body: a text, or one of the protocol's own.
    fn hear_one(&mut self) -> Option<Came>
        requires goes_on { self.old.is_over ≡ false }
        requires in_hand { rest_of self.old.frame ≡ [] }
        ensures { HearsOne self.old self.new result }
    {
        match read_one(&mut self.socket) {
            One::Body(body) => {
                self.frame = FrameInHand::of(body);
                Some(Came::Message)
            }
            One::Passed => None,
            One::Blocked => Some(Came::Nothing),
            One::Failed => {
                self.is_over = true;
                Some(Came::End)
            }
        }
    }
}

impl<S: Connection> Read for SocketReader<S> {
    ghost use Rattle.std.specs.IoError.{error_kind};
    ghost use Rattle.web_streams.specs.Hearing.{Pulls, PullsNothing};

    /// Waits for a message where none is in hand, and gives of its frame. It gives no byte only behind a whole frame,
    /// where nothing will come any more.
    fn read(&mut self, piece: &mut [u8]) -> io::Result<usize>
        ensures bound { IfOk result (λ count. count ≤ length piece.new) }
        ensures pulled { IfOk result (λ count. Pulls self.old self.new count piece.new) }
        ensures blocked { OnErr result (PullsNothing self.old self.new) }
        ensures would_block { IfErr result (λ e. error_kind e ≡ ErrorKind.WouldBlock) }
    {
        if piece.is_empty() {
            return Ok(0);
        }
        match self.wait() {
            Came::Message => Ok(self.give(piece)),
            Came::End => Ok(0),
            Came::Nothing => Err(io::Error::from(ErrorKind::WouldBlock)),
        }
    }
}
