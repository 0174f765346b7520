//! Streams of frames, cut from the front.

use std::alloc::{AllocError, Global};

/// The most bytes of a body.
const MOST_BODY: usize = 1 << 24;

/// The bodies that stand whole in a stream, and whether a length behind them is too great.
#[derive(Drop)]
pub struct Bodies {
    pub bodies: Vec<Vec<u8>>,
    pub is_too_long: bool,
}

pub fn bodies_in(alloc: Global, stream: &[u8]) -> Result<Bodies, AllocError> {
    let mut bodies = Vec::new(alloc);
    let mut rest = stream;
    for _ in 0..stream.len() {
        match front_of(rest) {
            Front::Body(body, behind) => {
                bodies.push(Vec::from_slice(alloc, body)?)?;
                rest = behind;
            }
            Front::Waits => break,
            Front::TooLong => {
                return Ok(Bodies {
                    bodies,
                    is_too_long: true,
                });
            }
        }
    }
    Ok(Bodies {
        bodies,
        is_too_long: false,
    })
}

/// What stands at the front of a stream.
enum Front<'a> {
    Body(&'a [u8], &'a [u8]),
    Waits,
    TooLong,
}

fn front_of(stream: &[u8]) -> Front<'_> {
    let Some((length, rest)) = stream.split_at_checked(4) else {
        return Front::Waits;
    };
    let length = length.iter().fold(
        0_usize,
        |number, byte| number.wrapping_mul(256).wrapping_add(usize::from(*byte)),
    );
    if length > MOST_BODY {
        return Front::TooLong;
    }
    match rest.split_at_checked(length) {
        Some((body, behind)) => Front::Body(body, behind),
        None => Front::Waits,
    }
}
