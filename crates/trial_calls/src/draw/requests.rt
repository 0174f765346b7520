//! Requests by chance.

use crate::chance::Chance;
use crate::draw::deltas::push_edit;
use crate::draw::messages::{LIFE, push_head};
use std::alloc::{AllocError, Global};

/// A generation that may be exported, or one past the last.
static GENERATIONS: [u32; 6] = [0, 1, 2, 77, 0x2000_0000, 0x2000_0001];

/// For how many milliseconds news may be awaited, or for too many.
static AWAITED: [u32; 4] = [0, 1000, 60_000, 60_001];

/// The replica of seat 1, and that of another.
static STAMPS: [u64; 4] = [0x1_0001, 0x2_0001, 0xffff_ffff_ffff_0001, 0x1_0002];

/// A request of each kind, or a byte that is none.
pub fn request(alloc: Global, chance: &mut Chance) -> Result<Vec<u8>, AllocError> {
    let kind = chance.one_of(&[1, 2, 2, 2, 3, 3, 4, 5, 7, 8, 8, 9, 11], 1);
    let mut request = Vec::from_slice(alloc, &[kind])?;
    match kind {
        2 => push_delta(&mut request, chance)?,
        5 => push_generations(&mut request, chance, 1)?,
        7 => {
            let count = (chance.word() & 3) as u16;
            request.extend_from_slice(&count.to_be_bytes())?;
            push_generations(&mut request, chance, count)?;
        }
        8 => request.extend_from_slice(&chance.one_of(&AWAITED, 0).to_be_bytes())?,
        _ => {}
    }
    Ok(request)
}

/// The delta of one edit, or of none or two.
fn push_delta(request: &mut Vec<u8>, chance: &mut Chance) -> Result<(), AllocError> {
    push_head(request, b"GLWD", 1, LIFE)?;
    let count = chance.one_of(&[1, 1, 1, 1, 1, 1, 0, 2], 1_u8);
    request.extend_from_slice(&u32::from(count).to_be_bytes())?;
    for _ in 0..count {
        let stamp = chance.one_of(&STAMPS, 0x1_0001);
        push_edit(request, chance, LIFE.states, stamp)?;
    }
    Ok(())
}

fn push_generations(
    request: &mut Vec<u8>,
    chance: &mut Chance,
    count: u16,
) -> Result<(), AllocError> {
    for _ in 0..count {
        request.extend_from_slice(&chance.one_of(&GENERATIONS, 0).to_be_bytes())?;
    }
    Ok(())
}
