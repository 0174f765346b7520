//! One pull.

ghost use Rattle.frame_line.specs.Receiving.{IsEnd, IsPulled};

use crate::fault::LineFault;
use devices::Source;
use message_frames::Frames;

/// The most bytes of a pull.
const PIECE: usize = 4096;

/// Pulls once, and puts what came behind what is pending.
pub(crate) fn pull_piece<S: Source>(frames: &mut Frames, source: &mut S) -> Result<(), LineFault>
    ensures { IsPulled frames.old frames.new (S.known source.old) (S.known source.new) result }
{
    let mut piece = [0; PIECE];
    let Ok(count) = source.pull(&mut piece) else {
        return Err(LineFault::Read);
    };
    if count == 0 {
        return Err(end_of(frames));
    }
    match frames.feed(&piece[..count]) {
        Ok(()) => Ok(()),
        Err(_) => Err(LineFault::Memory),
    }
}

/// What an end of the input is.
fn end_of(frames: &Frames) -> LineFault
    ensures { IsEnd frames.now.pending result }
{
    if frames.is_empty() {
        LineFault::Ended
    } else {
        LineFault::Cut
    }
}
