//! Frames.

use crate::memory::{is_fault, is_text, tell_all};
use message_frames::{FrameFault, Frames, frame};
use std::alloc::{AllocError, Global};
use std::io;

/// Bodies behind their lengths, and half of the length that follows.
const STREAM: &[u8] = b"\0\0\0\x01\x01\0\0\0\x02ab\0\0\0\x01\x09\0\0\0\x01\x06\0\0";

/// Those bodies.
static BODIES: [&[u8]; 4] = [&[1], b"ab", &[9], &[6]];

pub fn tell_calls(rt: &impl Print, alloc: Global) -> io::Result<()> {
    tell_all(
        rt,
        "frames",
        &[
            ("frame", body_is_framed(alloc)),
            ("Frames::feed, next", bodies_are_taken(alloc)),
            ("Frames::next refused", long_frame_is_refused(alloc)),
        ],
    )
}

fn body_is_framed(alloc: Global) -> bool {
    let answer = again!(FrameFault::Memory, frame(alloc, b"ab"));
    is_text(answer, b"\0\0\0\x02ab")
}

/// Frames that were fed the stream, in pieces of so many bytes.
fn fed(alloc: Global, size: usize) -> Result<Frames, AllocError> {
    let mut frames = Frames::new(alloc);
    for piece in STREAM.chunks(size.max(1)) {
        again!(AllocError, frames.feed(piece))?;
    }
    Ok(frames)
}

/// Whether frames have these bodies, and no more.
fn have_bodies(frames: &mut Frames) -> Result<bool, FrameFault> {
    for body in BODIES {
        match frames.next()? {
            Some(next) if next.as_slice() == body => {}
            _ => return Ok(false),
        }
    }
    Ok(frames.next()?.is_none())
}

/// Whether that is so of the stream in pieces. Where memory is refused for a body, frames say so for ever,
/// and others are fed.
fn is_taken(alloc: Global, size: usize) -> bool {
    match bodies_taken(alloc, size) {
        None => bodies_taken(alloc, size) == Some(true),
        are_taken => are_taken == Some(true),
    }
}

/// The same of frames of their own; `None` where memory was refused for a body, and is said to be.
fn bodies_taken(alloc: Global, size: usize) -> Option<bool> {
    let Ok(mut frames) = fed(alloc, size) else {
        return Some(false);
    };
    match have_bodies(&mut frames) {
        Err(FrameFault::Memory) if frames.feed(STREAM).is_err() => None,
        answer => Some(answer == Ok(true)),
    }
}

/// However a stream is cut, it has the same bodies.
fn bodies_are_taken(alloc: Global) -> bool {
    is_taken(alloc, 1) && is_taken(alloc, 3) && is_taken(alloc, 23)
}

/// A frame that is too long is told for ever.
fn long_frame_is_refused(alloc: Global) -> bool {
    let mut frames = Frames::new(alloc);
    again!(AllocError, frames.feed(&[1, 0, 0, 1])).is_ok()
        && is_fault(frames.next(), FrameFault::FrameTooLong)
        && is_fault(frames.next(), FrameFault::FrameTooLong)
}
