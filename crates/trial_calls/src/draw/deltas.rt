//! Deltas by chance.

use crate::chance::Chance;
use crate::draw::messages::{stamp, state};
use std::alloc::AllocError;

/// How many edits there are, and the edits.
pub fn push_edits(
    text: &mut Vec<u8>,
    chance: &mut Chance,
    states: u16,
    count: usize,
) -> Result<(), AllocError> {
    text.extend_from_slice(&(count.min(1000) as u32).to_be_bytes())?;
    for _ in 0..count {
        let stamp = stamp(chance);
        push_edit(text, chance, states, stamp)?;
    }
    Ok(())
}

/// An edit with a stamp: of listed cells, of an area, or of both.
pub fn push_edit(
    text: &mut Vec<u8>,
    chance: &mut Chance,
    states: u16,
    stamp: u64,
) -> Result<(), AllocError> {
    text.extend_from_slice(&stamp.to_be_bytes())?;
    let (x, y) = (corner(chance), corner(chance));
    let cells = chance.below(6);
    if chance.is_one_in(2) {
        text.push(0)?;
        return push_cells(text, chance, states, (x, y), cells.max(1));
    }
    text.push(1)?;
    for word in [x, y, side(chance), side(chance)] {
        text.extend_from_slice(&word.to_be_bytes())?;
    }
    push_cells(text, chance, states, (x, y), cells.min(2))
}

/// The place word of a corner that is not far from the middle, or anywhere.
fn corner(chance: &mut Chance) -> u32 {
    if chance.is_one_in(4) {
        chance.word() & 0x3fff_ffff
    } else {
        0x4000_0000 + (chance.word() & 0xff)
    }
}

/// A side of an area.
fn side(chance: &mut Chance) -> u32 {
    if chance.is_one_in(4) {
        chance.word() & 0x3fff_ffff | 1
    } else {
        16 + (chance.word() & 0xff)
    }
}

/// So many cells, each some places behind the one before, in states that are not 0.
fn push_cells(
    text: &mut Vec<u8>,
    chance: &mut Chance,
    states: u16,
    (x, y): (u32, u32),
    count: usize,
) -> Result<(), AllocError> {
    text.extend_from_slice(&(count.min(1000) as u32).to_be_bytes())?;
    let (mut column, mut row) = (x, y);
    for _ in 0..count {
        text.extend_from_slice(&column.to_be_bytes())?;
        text.extend_from_slice(&row.to_be_bytes())?;
        text.push(state(chance, states.saturating_sub(1)).saturating_add(1))?;
        if chance.is_one_in(3) {
            row = row.wrapping_add(1);
            column = x;
        } else {
            column = column.wrapping_add(1 + (chance.word() & 1));
        }
    }
    Ok(())
}
