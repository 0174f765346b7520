//! Bodies behind their lengths.

ghost use Rattle.std.specs.Prelude.{◌≡◌, ◌<◌, ◌++◌, ◌↔◌, length, drop, IfOk, IsErrOf, IsTrue};
ghost use Rattle.message_frames.specs.Framed.{IsFrame};
ghost use Rattle.message_frames.specs.Frames.{frame_text, is_body, most_body};

use crate::frame_fault::FrameFault;
use crate::stream::{MOST_BODY, SIZE_BYTES};
use std::alloc::Global;
use std::marker::Model;

/// The body of a frame, kept behind its length, so that the frame is sent as it stands: no memory is taken
/// for it then, and nothing copied.
#[derive(Drop)]
pub struct Framed {
    bytes: Vec<u8>,
}

impl Model for Framed {
    ghost use Rattle.std.specs.Prelude.{List, ℕ, drop};
    ghost use Rattle.message_frames.specs.Framed.{IsFrame};

    ghost Value = { List ℕ };

    ghost view = { λ f. drop 4 f.bytes.items };

    ghost invariant = { λ f. IsFrame f.bytes.items };
}

impl Framed {
    /// A body that is `head` and then `rest`, which are copied once. Refused where they are more than 2^24
    /// bytes, whatever memory there is.
    pub fn of_parts(alloc: Global, head: &[u8], rest: &[u8]) -> Result<Framed, FrameFault>
        ensures ok { IfOk result (λ framed. framed ≡ head.now ++ rest.now) }
        ensures too_long { IsErrOf result FrameFault.FrameTooLong ↔ (most_body < length (head.now ++ rest.now)) }
    {
        if rest.len() > MOST_BODY || head.len() > MOST_BODY - rest.len() {
            return Err(FrameFault::FrameTooLong);
        }
        let size = head.len() + rest.len();
        let mut bytes = Vec::with_capacity(alloc, SIZE_BYTES + size)?;
        bytes.extend_from_slice(&(size as u32).to_be_bytes())?;
        bytes.extend_from_slice(head)?;
        bytes.extend_from_slice(rest)?;
        Ok(Framed { bytes })
    }

    /// A body of at most 2^24 bytes; of more it is refused, whatever memory there is.
    pub fn of_body(alloc: Global, body: &[u8]) -> Result<Framed, FrameFault>
        ensures ok { IfOk result (λ framed. framed ≡ body.now) }
        ensures too_long { IsErrOf result FrameFault.FrameTooLong ↔ (most_body < length body.now) }
    {
        Framed::of_parts(alloc, &[], body)
    }

    /// The body of the frame that these bytes are. It takes no memory.
    pub fn of_frame(bytes: Vec<u8>) -> Framed
        requires { IsFrame bytes.items }
        ensures { result ≡ drop 4 bytes.items }
    {
        Framed { bytes }
    }

    /// The whole frame.
    pub fn as_frame(&self) -> &[u8]
        ensures frame { result.now ≡ frame_text self.now }
        ensures body { IsTrue (is_body self.now) }
    {
        &self.bytes
    }

    /// The body alone.
    pub fn as_body(&self) -> &[u8]
        ensures { result.now ≡ self.now }
    {
        &self.bytes[SIZE_BYTES..]
    }
}
