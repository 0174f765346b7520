//! Requests.

ghost use Rattle.std.specs.Prelude.{◌≡◌, ◌<◌, ◌↔◌, length, IfOk, IsErrOf};
ghost use Rattle.message_frames.specs.Frames.{most_body};
ghost use Rattle.session_hub.specs.Request.{request_of};
ghost use Rattle.client_protocol.specs.Asking.{asked_as, asking_bytes};

use message_frames::{FrameFault, Framed};
use std::alloc::Global;

/// What a client asks.
#[derive(Clone, Copy, Debug, PartialEq, Eq)]
pub enum Asking<'a> {
    /// For its seat and the rule.
    Hello,
    /// That the edit of this text be published.
    Push(&'a [u8]),
    /// For what is new.
    Poll,
    /// To end the session.
    Bye,
    /// For what is new, once there is something, or so many milliseconds are over, at most 60,000.
    Await(u32),
    /// For the whole plane in pieces.
    Pieces,
}

/// The body of a request. One of more than 2^24 bytes is refused, whatever memory there is. A session finds no
/// request in an `Await` of more than 60,000 milliseconds.
pub fn request_body(alloc: Global, asking: Asking<'_>) -> Result<Framed, FrameFault>
    ensures spelt { IfOk result (λ framed. framed ≡ asking_bytes asking.entry) }
    ensures meant { IfOk result (λ framed. request_of framed ≡ asked_as asking.entry) }
    ensures too_long { IsErrOf result FrameFault.FrameTooLong ↔ (most_body < length (asking_bytes asking.entry)) }
{
    match asking {
        Asking::Hello => Framed::of_body(alloc, &[1]),
        Asking::Push(text) => Framed::of_parts(alloc, &[2], text),
        Asking::Poll => Framed::of_body(alloc, &[3]),
        Asking::Bye => Framed::of_body(alloc, &[6]),
        Asking::Await(milliseconds) => Framed::of_parts(alloc, &[8], &milliseconds.to_be_bytes()),
        Asking::Pieces => Framed::of_body(alloc, &[11]),
    }
}
