//! Each byte of some texts, set to each of its values: refused, or read as what is written as those bytes. A
//! state of version 1 that is read is written in version 2, as bytes that are read and written again.

use crate::shapes::{checkered, first_in_corner};
use crate::spelling::{DELTA, text_of};
use crate::telling::{brians_brain, is_written_again, rewritten};
use generations_rule::Rule;
use std::alloc::{AllocError, Global};
use std::ops::Range;
use std::test::Fail;

/// Of how many values of one byte a text is read and told again; `None` where one is read as another message.
fn values_read(
    alloc: Global,
    rule: &Rule,
    text: &[u8],
    place: usize,
) -> Result<Option<u32>, AllocError> {
    let mut changed = Vec::from_slice(alloc, text)?;
    let mut read = 0_u32;
    for value in 0..256_u16 {
        if let Some(byte) = changed.get_mut(place) {
            *byte = value as u8;
        }
        match is_told(alloc, rule, &changed)? {
            Some(true) => read = read.saturating_add(1),
            Some(false) => return Ok(None),
            None => {}
        }
    }
    Ok(Some(read))
}

/// Whether a text, where it is read, is written again as it was, or in version 2.
fn is_told(alloc: Global, rule: &Rule, text: &[u8]) -> Result<Option<bool>, AllocError> {
    let Some(again) = rewritten(alloc, rule, text)? else {
        return Ok(None);
    };
    if again.as_slice() == text {
        return Ok(Some(true));
    }
    let is_first = text.starts_with(b"GLWS\x01");
    Ok(Some(is_first && is_written_again(alloc, rule, &again)?))
}

/// Texts whose bytes are set.
#[derive(Clone, Copy)]
enum Tried {
    Area,
    Leaf,
    Squares,
    First,
}

impl Tried {
    /// With how many values of a byte the text is read.
    fn meant(self, place: usize) -> u32 {
        match self {
            Tried::Area => AREA_MEANT.get(place).copied().unwrap_or(0),
            Tried::Leaf => leaf_meant(place),
            Tried::Squares => four_meant(place),
            Tried::First => first_meant(place),
        }
    }
}

/// The first of some places at which a text is read with another number of values than is meant, and that
/// number.
fn first_amiss(
    alloc: Global,
    text: &[u8],
    places: Range<usize>,
    tried: Tried,
) -> Result<Option<(usize, Option<u32>)>, Fail> {
    let rule = brians_brain()?;
    for place in places {
        let read = values_read(alloc, &rule, text, place)?;
        if read != Some(tried.meant(place)) {
            return Ok(Some((place, read)));
        }
    }
    Ok(None)
}

/// One edit, of an area of two columns and a row, of which the second is state 1.
const AREA: &str = "00000001 0000000000010001 01 40000000 40000000 00000002 00000001 \
    00000001 40000001 40000000 01";

/// The head and the numbers of edits and cells have one value each, and the flag; the counter's bytes have
/// all, but 0 in the last, and the replica's likewise. The area may begin where its cell is, and be as wide
/// and high as the plane has room, but not too small for the cell.
static AREA_MEANT: [u32; 52] = [
    1, 1, 1, 1, 1, 1, 1, 1, 1, 1, 1, 1, 1, 1, 256, 256, 256, 256, 256, 255, 256, 255, 1, 1, 1, 1,
    2, 1, 1, 1, 1, 64, 256, 256, 254, 64, 256, 256, 255, 1, 1, 1, 1, 1, 1, 1, 2, 1, 1, 1, 1, 2,
];

#[test]
fn bytes_of_an_area_are_refused_or_told(rt: HostRuntime) -> Result<(), Fail> {
    let text = text_of(rt.alloc(), DELTA, AREA)?;
    assert_eq!(rt; text.len(), 52);
    let amiss = first_amiss(rt.alloc(), &text, 0..52, Tried::Area)?;
    assert_eq!(rt; amiss, None);
    Ok(())
}

/// A write in a leaf: of the counter's bytes the last is not 0, nor is the replica's last; there are three
/// states.
static WRITE_MEANT: [u32; 9] = [256, 256, 256, 256, 256, 255, 256, 255, 3];

/// The head, the number of entries and the level, and writes behind them.
fn leaf_meant(place: usize) -> u32 {
    match place.checked_sub(15) {
        Some(behind) => WRITE_MEANT.get(behind % 9).copied().unwrap_or(0),
        None => 1,
    }
}

#[test]
fn bytes_of_a_leaf_are_refused_or_told(rt: HostRuntime) -> Result<(), Fail> {
    let text = checkered(rt.alloc())?;
    let amiss = first_amiss(rt.alloc(), &text, 0..60, Tried::Leaf)?;
    assert_eq!(rt; amiss, None);
    Ok(())
}

/// The squares of four behind the two leaves, two of each level. A quarter may be the other square of its
/// level, but for the first quarter of the first: the walk would meet that one too early.
fn four_meant(place: usize) -> u32 {
    let behind = place.saturating_sub(1168);
    match (behind / 21 % 2, behind % 21) {
        (1, 5) | (_, 10 | 15 | 20) => 2,
        _ => 1,
    }
}

#[test]
fn bytes_of_squares_are_refused_or_told(rt: HostRuntime) -> Result<(), Fail> {
    let text = checkered(rt.alloc())?;
    assert_eq!(rt; text.len(), 2323);
    let amiss = first_amiss(rt.alloc(), &text, 1168..2323, Tried::Squares)?;
    assert_eq!(rt; amiss, None);
    Ok(())
}

/// Squares of four whose last quarter goes on, and a leaf whose last write is the only one.
fn first_meant(place: usize) -> u32 {
    match place.checked_sub(1362) {
        Some(behind) => WRITE_MEANT.get(behind).copied().unwrap_or(0),
        None => 1,
    }
}

#[test]
fn bytes_of_version_1_are_refused_or_told(rt: HostRuntime) -> Result<(), Fail> {
    let text = first_in_corner(rt.alloc(), 3, 63)?;
    assert_eq!(rt; text.len(), 1371);
    let amiss = first_amiss(rt.alloc(), &text, 0..1371, Tried::First)?;
    assert_eq!(rt; amiss, None);
    Ok(())
}
