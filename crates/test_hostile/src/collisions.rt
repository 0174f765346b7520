//! States with leaves that are made to hash alike, by multipliers that many hashes have or against the fixed
//! key: each is kept for itself, whatever the key is.

use crate::shapes::{at_corner, push_blanks};
use crate::spelling::{
    FIRST, Quarter, Written, bytes_of, push_four, push_two, push_write, state_of,
};
use crate::telling::{brians_brain, is_told_again, rewritten};
use delta_exchange::{ReadFault, read_within};
use generations_rule::Rule;
use keyed_hash::{HashKey, KEY_BYTES};
use stamped_tree::{Limits, Plane};
use std::alloc::{AllocError, Global};
use std::test::Fail;

/// 2^64 divided by the golden ratio, made odd: a multiplier of many hashes.
const MULTIPLIER: u64 = 0x9e37_79b9_7f4a_7c15;

/// The stamps that with the fixed key's first and second number give 0 modulo 2^64, so that one factor of the
/// first two places is 0, and the other may be anything.
const FIRST_FACTOR_0: u64 = 0x1ddf_57c6_84e2_3251;

const SECOND_FACTOR_0: u64 = 0x9187_6195_5e46_9a0c;

/// The stamps in the first two places of two leaves, in which state 1 is written.
type Leaves = [[u64; 2]; 2];

static PAIRS: [Leaves; 8] = [
    // They differ in the highest bits of two stamps.
    [
        [0x1_0001, 0x1_0001],
        [0x8000_0000_0001_0001, 0x8000_0000_0001_0001],
    ],
    [
        [0x7fff_ffff_ffff_ffff, 0xffff_ffff_ffff_0001],
        [0xffff_ffff_ffff_ffff, 0x7fff_ffff_ffff_0001],
    ],
    // The multiplier times the first stamp, and the second, have one sum.
    [[0x1_0001, 0x9e37_79b9_7f4b_7c16], [0x1_0002, 0x1_0001]],
    // That sum is 0.
    [
        [0x1_0001, 0xe80f_06fc_04a0_83eb],
        [0x2_0001, 0x6e55_87b1_888b_83eb],
    ],
    // The multiplier is a stamp itself, and the same stamps stand the other way round.
    [[MULTIPLIER, 0x1_0001], [0x1_0001, MULTIPLIER]],
    [
        [MULTIPLIER, MULTIPLIER],
        [MULTIPLIER, 0x9e37_79b9_7f4a_7c16],
    ],
    // By the fixed key both have one sum.
    [[FIRST_FACTOR_0, 0x1_0001], [FIRST_FACTOR_0, 0x2_0001]],
    [[0x1_0001, SECOND_FACTOR_0], [0x2_0001, SECOND_FACTOR_0]],
];

/// The fixed key, and another one.
fn keys() -> [HashKey; 2] {
    [HashKey::fixed(), HashKey::of_bytes(&[7; KEY_BYTES])]
}

/// The state of a plane with two leaves beside one another in its first corner.
fn beside(alloc: Global, leaves: &Leaves) -> Result<Vec<u8>, AllocError> {
    let mut text = state_of(alloc, 30)?;
    for [first, second] in *leaves {
        push_two(&mut text, written(first), written(second))?;
    }
    let nothing = Quarter::Blank(0);
    push_four(
        &mut text,
        4,
        [Quarter::Entry(0), Quarter::Entry(1), nothing, nothing],
    )?;
    for level in 5..32_u8 {
        let below = Quarter::Entry(u32::from(level) - 3);
        push_four(&mut text, level, [below, nothing, nothing, nothing])?;
    }
    Ok(text)
}

/// State 1 with a stamp.
fn written(stamp: u64) -> Written {
    Written { stamp, state: 1 }
}

/// The stamps of the two leaves' first two places.
fn stamps_in(plane: &Plane) -> Leaves {
    [leaf_stamps(plane, 0, 0), leaf_stamps(plane, 8, 0)]
}

/// The stamps of the first two places of a leaf.
fn leaf_stamps(plane: &Plane, column: u32, row: u32) -> [u64; 2] {
    let first = at_corner(plane, column, row);
    let second = at_corner(plane, column | 1, row);
    [first.stamp, second.stamp]
}

/// The stamps that are read of a text by a key, and how many squares.
fn stamps_read(
    alloc: Global,
    rule: &Rule,
    text: &[u8],
    key: HashKey,
) -> Result<Option<(Leaves, u32)>, ReadFault> {
    let message = read_within(alloc, rule, text, Limits::of_key(key))?;
    Ok(
        message
            .plane()
            .map(|plane| (stamps_in(plane), plane.nodes())),
    )
}

#[test]
fn leaves_that_hash_alike_are_two(rt: HostRuntime) -> Result<(), Fail> {
    let rule = brians_brain()?;
    for leaves in &PAIRS {
        let text = beside(rt.alloc(), leaves)?;
        for key in keys() {
            assert_eq!(rt;
                stamps_read(rt.alloc(), &rule, &text, key)?,
                Some((*leaves, 31))
            );
        }
        assert!(rt; is_told_again(rt.alloc(), &text)?);
    }
    Ok(())
}

/// How many leaves of one hash stand in one state: all of a square of level 8.
const LEAVES: u32 = 1024;

/// The stamps of one of them: by the fixed key they come to one sum in all.
fn stamps_of(leaf: u32) -> [u64; 2] {
    [FIRST_FACTOR_0, u64::from(leaf) + 65537]
}

/// A state of version 1 of such leaves, in the first corner of the plane: the levels 31 to 9, the square of
/// level 8, and the blanks behind it.
fn crowded(alloc: Global) -> Result<Vec<u8>, AllocError> {
    let mut text = bytes_of(alloc, FIRST)?;
    text.extend_from_slice(&[2; 23])?;
    for leaf in 0..LEAVES {
        push_opened(&mut text, leaf)?;
        push_leaf(&mut text, stamps_of(leaf))?;
    }
    push_blanks(&mut text, 69)?;
    Ok(text)
}

/// The tags of the squares of levels 8 to 4 that begin with a leaf.
fn push_opened(text: &mut Vec<u8>, leaf: u32) -> Result<(), AllocError> {
    let levels = leaf.trailing_zeros().min(10) / 2;
    for _ in 0..levels {
        text.push(2)?;
    }
    Ok(())
}

/// A leaf of version 1 with state 1 in its first two places.
fn push_leaf(text: &mut Vec<u8>, stamps: [u64; 2]) -> Result<(), AllocError> {
    let [first, second] = stamps;
    text.push(1)?;
    push_write(text, written(first))?;
    push_write(text, written(second))?;
    text.extend_from_slice(&[0; 558])
}

/// The column and row of a leaf's first place: the digits of its number, one of the row before each of the
/// column.
fn place_of(leaf: u32) -> (u32, u32) {
    let (mut column, mut row) = (0_u32, 0_u32);
    for bit in 0..5_u32 {
        column |= (leaf >> (2 * bit) & 1) << (bit + 3);
        row |= (leaf >> (2 * bit + 1) & 1) << (bit + 3);
    }
    (column, row)
}

/// How many of the leaves have their stamps.
fn leaves_shown(plane: &Plane) -> u32 {
    let mut shown = 0_u32;
    for leaf in 0..LEAVES {
        let (column, row) = place_of(leaf);
        if leaf_stamps(plane, column, row) == stamps_of(leaf) {
            shown = shown.saturating_add(1);
        }
    }
    shown
}

fn crowd_read(
    alloc: Global,
    rule: &Rule,
    text: &[u8],
    key: HashKey,
) -> Result<Option<u32>, ReadFault> {
    let message = read_within(alloc, rule, text, Limits::of_key(key))?;
    Ok(message.plane().map(leaves_shown))
}

/// In version 2 there are the leaves, 341 squares of four entries and 23 of one.
#[test]
fn a_crowd_of_one_hash_is_read_whole(rt: HostRuntime) -> Result<(), Fail> {
    let alloc = rt.alloc();
    let rule = brians_brain()?;
    let first = crowded(alloc)?;
    for key in keys() {
        assert_eq!(rt; crowd_read(alloc, &rule, &first, key)?, Some(LEAVES));
    }
    let text = rewritten(alloc, &rule, &first)?.ok_or("a state")?;
    assert_eq!(rt; text.len(), 14 + 1024 * 577 + 341 * 21 + 23 * 33);
    assert!(rt; is_told_again(alloc, &text)?);
    for key in keys() {
        assert_eq!(rt; crowd_read(alloc, &rule, &text, key)?, Some(LEAVES));
    }
    Ok(())
}
