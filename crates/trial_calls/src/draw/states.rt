//! States of either version by chance.

use crate::chance::Chance;
use crate::draw::messages::{blank, stamp, state};
use std::alloc::{AllocError, Global};

/// A square of version 1, so many levels above a leaf.
pub fn push_square(
    text: &mut Vec<u8>,
    chance: &mut Chance,
    states: u16,
    above: u32,
) -> Result<(), AllocError> {
    if above == 0 {
        text.push(1)?;
        return push_leaf(text, chance, states);
    }
    if chance.is_one_in(40) {
        return push_blank(text, blank(chance));
    }
    text.push(2)?;
    let onward = chance.below(4);
    let ends_here = chance.is_one_in(20);
    for quarter in 0..4_usize {
        if quarter == onward && !ends_here {
            push_square(text, chance, states, above - 1)?;
        } else {
            push_blank(text, blank(chance))?;
        }
    }
    Ok(())
}

/// A blank square of version 1, or a blank quarter of version 2.
fn push_blank(text: &mut Vec<u8>, stamp: u64) -> Result<(), AllocError> {
    text.push(0)?;
    text.extend_from_slice(&stamp.to_be_bytes())
}

/// The writes of a leaf, most of which are nothing.
fn push_leaf(text: &mut Vec<u8>, chance: &mut Chance, states: u16) -> Result<(), AllocError> {
    let first = chance.below(64);
    for place in 0..64_usize {
        if place == first || chance.is_one_in(30) {
            text.extend_from_slice(&stamp(chance).to_be_bytes())?;
            text.push(state(chance, states))?;
        } else {
            text.extend_from_slice(&[0; 9])?;
        }
    }
    Ok(())
}

/// The entries of version 2, and how many they are: none, or one or two of each level.
pub fn push_entries(
    alloc: Global,
    text: &mut Vec<u8>,
    chance: &mut Chance,
    states: u16,
) -> Result<(), AllocError> {
    if chance.is_one_in(20) {
        text.extend_from_slice(&[0; 4])?;
        return text.extend_from_slice(&blank(chance).to_be_bytes());
    }
    let mut entries = Vec::new(alloc);
    let count = push_levels(&mut entries, chance, states)?;
    text.extend_from_slice(&count.to_be_bytes())?;
    text.extend_from_slice(&entries)
}

/// The numbers of the entries of a level: the first, and the one behind it where there are two.
#[derive(Clone, Copy)]
struct Level {
    first: u32,
    are_two: bool,
}

impl Level {
    /// The level whose entries stand behind these.
    fn above(self, are_two: bool) -> Level {
        Level {
            first: self.first.wrapping_add(1 + u32::from(self.are_two)),
            are_two,
        }
    }
}

/// The leaves, and the squares on them up to the plane; how many they are.
fn push_levels(entries: &mut Vec<u8>, chance: &mut Chance, states: u16) -> Result<u32, AllocError> {
    let mut level = Level {
        first: 0,
        are_two: chance.is_one_in(3),
    };
    push_leaves(entries, chance, states, level.are_two)?;
    for number in 4..32_u8 {
        let above = level.above(number < 31 && chance.is_one_in(3));
        push_squares(entries, chance, number, level, above.are_two)?;
        level = above;
    }
    Ok(level.first.wrapping_add(1))
}

fn push_leaves(
    entries: &mut Vec<u8>,
    chance: &mut Chance,
    states: u16,
    are_two: bool,
) -> Result<(), AllocError> {
    for _ in 0..1 + u8::from(are_two) {
        entries.push(3)?;
        push_leaf(entries, chance, states)?;
    }
    Ok(())
}

/// One or two squares of a level: the first has all of the level below, in their order. In a few cases the
/// order is another, or the second is the first once more.
fn push_squares(
    entries: &mut Vec<u8>,
    chance: &mut Chance,
    level: u8,
    below: Level,
    are_two: bool,
) -> Result<(), AllocError> {
    let start = entries.len();
    let (first, second) = two_places(chance);
    let last = below.first.wrapping_add(u32::from(below.are_two));
    push_four(
        entries,
        chance,
        level,
        [(first, below.first), (second, last)],
    )?;
    if are_two && chance.is_one_in(40) {
        let again = Vec::from_slice(*entries.allocator(), entries.get(start..).unwrap_or(&[]))?;
        entries.extend_from_slice(&again)?;
    } else if are_two {
        let place = chance.below(4);
        push_four(
            entries,
            chance,
            level,
            [(place, below.first), (place, below.first)],
        )?;
    }
    Ok(())
}

/// Two of four places, in their order but for a few cases.
fn two_places(chance: &mut Chance) -> (usize, usize) {
    let (first, second) = chance.one_of(&PLACES, (0, 3));
    if chance.is_one_in(80) {
        (second, first)
    } else {
        (first, second)
    }
}

/// The pairs of places of quarters.
static PLACES: [(usize, usize); 6] = [(0, 1), (0, 2), (0, 3), (1, 2), (1, 3), (2, 3)];

/// A square of four quarters: entries at some places, and blanks at the others.
fn push_four(
    entries: &mut Vec<u8>,
    chance: &mut Chance,
    level: u8,
    listed: [(usize, u32); 2],
) -> Result<(), AllocError> {
    entries.push(level)?;
    for place in 0..4_usize {
        match listed.iter().find(|(at, _)| *at == place) {
            Some((_, number)) => {
                entries.push(1)?;
                entries.extend_from_slice(&number.to_be_bytes())?;
            }
            None => push_blank(entries, blank(chance))?,
        }
    }
    Ok(())
}
