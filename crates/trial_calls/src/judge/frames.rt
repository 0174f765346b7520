//! `Frames` beside the slow reader of streams.

use crate::chance::Chance;
use crate::slow::frames::bodies_in;
use crate::verdict::Verdict;
use message_frames::{FrameFault, Frames};
use std::alloc::{AllocError, Global};

/// What a stream gave so far.
#[derive(Drop)]
struct Given {
    bodies: Vec<Vec<u8>>,
    is_too_long: bool,
}

/// The verdict on a stream that is fed in pieces by chance: behind each piece it has given what the slow
/// reader finds in all pieces so far.
pub fn judged(alloc: Global, chance: &mut Chance, stream: &[u8]) -> Result<Verdict, AllocError> {
    let mut frames = Frames::new(alloc);
    let mut given = Given {
        bodies: Vec::new(alloc),
        is_too_long: false,
    };
    let mut rest = stream;
    let mut is_same = true;
    for _ in 0..stream.len().saturating_add(1) {
        let piece = chance.below(40).saturating_add(1).min(rest.len());
        let (front, behind) = rest.split_at(piece);
        rest = behind;
        feed(&mut frames, &mut given, front)?;
        let fed = stream.len().saturating_sub(rest.len()).min(stream.len());
        is_same = is_same && is_given(alloc, &given, &stream[..fed])?;
        if rest.is_empty() {
            break;
        }
    }
    Ok(if given.is_too_long {
        Verdict::refused_if(is_same)
    } else {
        Verdict::accepted_if(is_same)
    })
}

/// Feeds a piece, and takes all bodies that are whole then; `next` is asked once more behind the last.
fn feed(frames: &mut Frames, given: &mut Given, piece: &[u8]) -> Result<(), AllocError> {
    frames.feed(piece)?;
    for _ in 0..piece.len().saturating_add(1) {
        match frames.next() {
            Ok(Some(body)) => given.bodies.push(body)?,
            Ok(None) => break,
            Err(FrameFault::FrameTooLong) => {
                given.is_too_long = true;
                break;
            }
            Err(FrameFault::Memory) => return Err(AllocError),
        }
    }
    Ok(())
}

/// Whether just this is found in what was fed.
fn is_given(alloc: Global, given: &Given, fed: &[u8]) -> Result<bool, AllocError> {
    let slow = bodies_in(alloc, fed)?;
    Ok(slow.is_too_long == given.is_too_long && slow.bodies == given.bodies)
}
