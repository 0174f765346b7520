//! Bodies that come.

ghost use Rattle.std.specs.Prelude.{◌≡◌};
ghost use Rattle.frame_line.specs.Receiving.{IsNext, IsReceived};

use crate::fault::LineFault;
use crate::pulling::pull_piece;
use devices::Source;
use message_frames::{FrameFault, Frames};

/// The next body of a line. While its frame is not all there the source is pulled, at most `turns` times;
/// where the frame stands already it is not. Memory is taken for what comes, and for no length that is
/// announced.
pub fn receive<S: Source>(
    frames: &mut Frames,
    source: &mut S,
    turns: u64,
) -> Result<Vec<u8>, LineFault>
    ensures { IsReceived (λ body. body.items) turns frames.old frames.new (S.known source.old) (S.known source.new) result }
{
    for _turn in 0..turns {
        match next_body(frames) {
            Err(fault) => return Err(fault),
            Ok(Some(body)) => return Ok(body),
            Ok(None) => {}
        }
        match pull_piece(frames, source) {
            Err(fault) => return Err(fault),
            Ok(()) => {}
        }
    }
    match next_body(frames) {
        Err(fault) => Err(fault),
        Ok(Some(body)) => Ok(body),
        Ok(None) => Err(LineFault::Turns),
    }
}

/// The body that stands next, if its frame is all there.
fn next_body(frames: &mut Frames) -> Result<Option<Vec<u8>>, LineFault>
    ensures { IsNext (λ body. body.items) frames.old frames.new result }
{
    match frames.next() {
        Ok(next) => Ok(next),
        Err(FrameFault::FrameTooLong) => Err(LineFault::FrameTooLong),
        Err(FrameFault::Memory) => Err(LineFault::Memory),
    }
}
