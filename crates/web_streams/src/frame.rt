//! A frame that is handed out.

ghost use Rattle.std.specs.Prelude.{◌≡◌, ℕ, List, ◌+◌, ◌^◌, ◌<◌, ◌≤◌, ◌++◌, [], length, min, take, ◌↔◌, IsTrue};

use bytes::Bytes;

/// How many bytes the length of a frame has.
const LENGTH: usize = 4;

/// The frame of a message, of which some bytes were handed out.
#[derive(Drop)]
pub(crate) struct FrameInHand {
    size: [u8; LENGTH],
    body: Bytes,
    given: usize,
    ghost short: { length body ≤ 16777216 },
    ghost within: { given ≤ 4 + length body },
}

impl FrameInHand {
    ghost use Rattle.message_frames.specs.Frames.{frame_text, is_body};
    ghost use Rattle.web_streams.specs.Frame.{rest_of};

    /// No frame.
    pub(crate) fn none() -> FrameInHand
        ensures { rest_of result ≡ [] }
    {
        FrameInHand {
            size: [0; LENGTH],
            body: Bytes::new(),
            given: LENGTH,
        }
    }

    /// The frame of a body, of which nothing was handed out.
    pub(crate) fn of(body: Bytes) -> FrameInHand
        requires { IsTrue (is_body body) }
        ensures { rest_of result ≡ frame_text body }
    {
        FrameInHand {
            size: (body.len() as u32).to_be_bytes(),
            body,
            given: 0,
        }
    }

    /// Whether all of it was handed out.
    pub(crate) fn is_given(&self) -> bool
        ensures { IsTrue result ↔ (rest_of self.now ≡ []) }
    {
        self.next().is_empty()
    }

    /// Hands out what is next: of the length first, then of the body. How many bytes it was: none only where
    /// nothing is left, or no room.
    pub(crate) fn give(&mut self, piece: &mut [u8]) -> usize
        ensures within { result ≤ length piece.new }
        ensures given { rest_of self.old ≡ take result piece.new ++ rest_of self.new }
        ensures some { 0 < length (rest_of self.old) → 0 < length piece.new → 0 < result }
    {
        let count = copied(self.next(), piece);
        self.given += count;
        count
    }

    /// What is left of the length, or else of the body.
    fn next(&self) -> &[u8]
        ensures front { (more : List ℕ) × (rest_of self.now ≡ result.now ++ more) }
        ensures none { length result.now ≡ 0 → rest_of self.now ≡ [] }
        ensures within { length result.now + self.now.given ≤ 4 + length self.now.body }
    {
        if self.given < LENGTH {
            &self.size[self.given..]
        } else {
            &self.body.as_slice()[self.given - LENGTH..]
        }
    }
}

/// Copies the front of some bytes, as many as there is room for.
fn copied(bytes: &[u8], piece: &mut [u8]) -> usize
    ensures count { result ≡ min (length bytes.now) (length piece.new) }
    ensures same { take result piece.new ≡ take result bytes.now }
{
    let count = bytes.len().min(piece.len());
    piece[..count].copy_from_slice(&bytes[..count]);
    count
}
