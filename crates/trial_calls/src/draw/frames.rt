//! Streams of frames by chance.

use crate::chance::Chance;
use std::alloc::{AllocError, Global};

/// Up to seven frames, one behind another.
pub fn stream(alloc: Global, chance: &mut Chance) -> Result<Vec<u8>, AllocError> {
    let mut stream = Vec::new(alloc);
    for _ in 0..chance.below(8) {
        push_frame(&mut stream, chance)?;
    }
    Ok(stream)
}

/// A body of up to 39 bytes behind its length.
fn push_frame(stream: &mut Vec<u8>, chance: &mut Chance) -> Result<(), AllocError> {
    let length = chance.word() % 40;
    stream.extend_from_slice(&length.to_be_bytes())?;
    for _ in 0..length {
        stream.push(chance.byte() & 3)?;
    }
    Ok(())
}
