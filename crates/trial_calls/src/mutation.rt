//! Good bytes made bad.

use crate::chance::Chance;
use std::alloc::{AllocError, Global};

/// A way to change bytes at a place.
#[derive(Clone, Copy)]
enum Change {
    /// One bit is turned.
    Bit,
    /// One byte is another.
    Byte,
    /// One byte is one that means something.
    Edge,
    /// A byte more.
    Insert,
    /// Some bytes fewer.
    Delete,
    /// Nothing stands behind the place.
    Cut,
    /// Some bytes stand there twice.
    Repeat,
    /// Behind the place it goes on as other bytes do.
    Splice,
    /// Four bytes announce a great number.
    Raise,
}

static CHANGES: [Change; 10] = [
    Change::Bit,
    Change::Bit,
    Change::Byte,
    Change::Edge,
    Change::Insert,
    Change::Delete,
    Change::Cut,
    Change::Repeat,
    Change::Splice,
    Change::Raise,
];

/// Numbers that are announced: the greatest, those at a sign's place, and one past some limits.
static NUMBERS: [&[u8]; 6] = [
    b"\xff\xff\xff\xff",
    b"\x80\0\0\0",
    b"\x7f\xff\xff\xff",
    b"\0\x10\0\x01",
    b"\x01\0\0\x01",
    b"\x20\0\0\x01",
];

/// Bytes that mean something in messages, frames and requests.
pub static EDGES: [u8; 16] = [
    0, 1, 2, 3, 4, 5, 6, 7, 8, 0x1e, 0x1f, 0x20, 0x40, 0x7f, 0x80, 0xff,
];

/// Those of RLE texts and scripts.
pub static LETTERS: [u8; 27] = *b" \t\n\r!#$,-./0129=ABXbopwxyz\"";

/// Bytes that mean something, and other bytes to go on with.
#[derive(Clone, Copy)]
pub struct Stock<'a> {
    pub edges: &'a [u8],
    pub other: &'a [u8],
}

/// Bytes with up to three changes: none in one of four cases.
pub fn mutated(
    alloc: Global,
    chance: &mut Chance,
    good: &[u8],
    stock: Stock<'_>,
) -> Result<Vec<u8>, AllocError> {
    let mut bytes = Vec::from_slice(alloc, good)?;
    for _ in 0..chance.below(4) {
        bytes = changed(alloc, chance, &bytes, stock)?;
    }
    Ok(bytes)
}

/// Bytes with one change.
fn changed(
    alloc: Global,
    chance: &mut Chance,
    bytes: &[u8],
    stock: Stock<'_>,
) -> Result<Vec<u8>, AllocError> {
    let change = chance.one_of(&CHANGES, Change::Bit);
    let place = chance.below(bytes.len().saturating_add(1)).min(bytes.len());
    let (front, behind) = bytes.split_at(place);
    let mut new = Vec::from_slice(alloc, front)?;
    push_new(&mut new, chance, change, behind, stock)?;
    let left_out = left_out(chance, change, behind.len()).min(behind.len());
    new.extend_from_slice(&behind[left_out..])?;
    Ok(new)
}

/// How many of the bytes behind the place are left out.
fn left_out(chance: &mut Chance, change: Change, behind: usize) -> usize {
    match change {
        Change::Bit | Change::Byte | Change::Edge => 1,
        Change::Insert | Change::Repeat => 0,
        Change::Delete => chance.below(12),
        Change::Cut | Change::Splice => behind,
        Change::Raise => 4,
    }
}

/// Puts what is new behind the bytes before the place.
fn push_new(
    new: &mut Vec<u8>,
    chance: &mut Chance,
    change: Change,
    behind: &[u8],
    stock: Stock<'_>,
) -> Result<(), AllocError> {
    match change {
        Change::Bit | Change::Byte | Change::Edge | Change::Insert => {
            new.extend_from_slice(&[new_byte(chance, change, behind, stock.edges)])
        }
        _ => new.extend_from_slice(new_bytes(chance, change, behind, stock.other)),
    }
}

/// The byte that is new, of a change to one.
fn new_byte(chance: &mut Chance, change: Change, behind: &[u8], edges: &[u8]) -> u8 {
    match change {
        Change::Bit => {
            let byte = behind.first().copied().unwrap_or(0);
            byte ^ chance.one_of(&[1, 2, 4, 8, 16, 32, 64, 128], 1)
        }
        Change::Edge => chance.one_of(edges, 0),
        _ => chance.byte(),
    }
}

/// The bytes that are new, of another change.
fn new_bytes<'a>(
    chance: &mut Chance,
    change: Change,
    behind: &'a [u8],
    other: &'a [u8],
) -> &'a [u8] {
    match change {
        Change::Repeat => &behind[..chance.below(40).min(behind.len())],
        Change::Splice => &other[chance.below(other.len()).min(other.len())..],
        Change::Raise => number(chance),
        _ => b"",
    }
}

fn number(chance: &mut Chance) -> &'static [u8] {
    chance.one_of(&NUMBERS, b"")
}
