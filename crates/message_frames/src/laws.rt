//! What streams of frames obey: the contract of a function that does nothing.

ghost use Rattle.message_frames.specs.FrameLaws.{HasOneCut, HasTaken};

/// The bodies of a stream of frames are those of its bytes, however these come in pieces: what was
/// taken of it are the first of them. No frame's text begins another's.
pub fn frame_laws()
    ensures taken { HasTaken }
    ensures cut { HasOneCut }
{}
