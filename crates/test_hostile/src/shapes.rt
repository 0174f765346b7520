//! States whose texts say much in few bytes, are deep or are wide, and chains of squares with a fault.

use crate::spelling::{
    FIRST, Quarter, Written, bytes_of, push_even_leaf, push_four, push_quarter, push_write,
    state_of,
};
use crate::telling::{brians_brain, fault_of, is_told_again, rewritten};
use delta_exchange::{ReadFault, read};
use edit_stamps::Write;
use generations_rule::Rule;
use stamped_tree::Plane;
use std::alloc::{AllocError, Global};
use std::test::Fail;

/// What is written everywhere, or in every other leaf.
const ONE: Written = Written {
    stamp: 65537,
    state: 1,
};

const TWO: Written = Written {
    stamp: 65537,
    state: 2,
};

/// A leaf, and on it squares of four quarters each of which is the entry before.
struct Chain {
    /// How many entries are announced.
    entries: u32,
    /// What is written in all of the leaf.
    leaf: Written,
    /// How often the leaf is listed.
    leaves: u8,
    /// A level of which no square is listed; 0 for none.
    left_out: u8,
    /// The last level of which a square is listed.
    last: u8,
    fault: Option<ReadFault>,
}

static CHAINS: [Chain; 9] = [
    Chain {
        entries: 29,
        leaf: ONE,
        leaves: 1,
        left_out: 0,
        last: 31,
        fault: None,
    },
    // An entry that equals an earlier one.
    Chain {
        entries: 30,
        leaf: ONE,
        leaves: 2,
        left_out: 0,
        last: 31,
        fault: Some(ReadFault::NotCanonical),
    },
    // Quarters that are two levels below.
    Chain {
        entries: 28,
        leaf: ONE,
        leaves: 1,
        left_out: 17,
        last: 31,
        fault: Some(ReadFault::NotCanonical),
    },
    // No square of level 31.
    Chain {
        entries: 28,
        leaf: ONE,
        leaves: 1,
        left_out: 0,
        last: 30,
        fault: Some(ReadFault::NotCanonical),
    },
    // One entry fewer is announced than there are.
    Chain {
        entries: 28,
        leaf: ONE,
        leaves: 1,
        left_out: 0,
        last: 31,
        fault: Some(ReadFault::NotCanonical),
    },
    // One more.
    Chain {
        entries: 30,
        leaf: ONE,
        leaves: 1,
        left_out: 0,
        last: 31,
        fault: Some(ReadFault::Short),
    },
    // A square of level 32.
    Chain {
        entries: 30,
        leaf: ONE,
        leaves: 1,
        left_out: 0,
        last: 32,
        fault: Some(ReadFault::NotCanonical),
    },
    // A leaf that is blank.
    Chain {
        entries: 29,
        leaf: Written {
            stamp: 65537,
            state: 0,
        },
        leaves: 1,
        left_out: 0,
        last: 31,
        fault: Some(ReadFault::NotCanonical),
    },
    // A leaf of a state where nothing was written.
    Chain {
        entries: 29,
        leaf: Written { stamp: 0, state: 1 },
        leaves: 1,
        left_out: 0,
        last: 31,
        fault: Some(ReadFault::StampRange),
    },
];

/// The text of a chain.
fn chained(alloc: Global, chain: &Chain) -> Result<Vec<u8>, AllocError> {
    let mut text = state_of(alloc, chain.entries)?;
    push_leaves(&mut text, chain)?;
    let mut below = u32::from(chain.leaves).saturating_sub(1);
    for level in 4..chain.last.saturating_add(1) {
        if level != chain.left_out {
            push_four(&mut text, level, [Quarter::Entry(below); 4])?;
            below = below.saturating_add(1);
        }
    }
    Ok(text)
}

fn push_leaves(text: &mut Vec<u8>, chain: &Chain) -> Result<(), AllocError> {
    for _ in 0..chain.leaves {
        push_even_leaf(text, chain.leaf)?;
    }
    Ok(())
}

#[test]
fn chains_are_read_or_refused(rt: HostRuntime) -> Result<(), Fail> {
    for chain in &CHAINS {
        let text = chained(rt.alloc(), chain)?;
        assert_eq!(rt; fault_of(rt.alloc(), &text)?, chain.fault);
    }
    Ok(())
}

/// The state of a plane that is one leaf everywhere: 2^62 cells in 1,179 bytes.
pub fn even(alloc: Global) -> Result<Vec<u8>, AllocError> {
    chained(alloc, &CHAINS[0])
}

/// The state of a plane of two leaves, in which the quarters of each square are another square, the other one
/// of its level, that one again and the first.
pub fn checkered(alloc: Global) -> Result<Vec<u8>, AllocError> {
    let mut text = state_of(alloc, 57)?;
    push_even_leaf(&mut text, ONE)?;
    push_even_leaf(&mut text, TWO)?;
    for level in 4..32_u8 {
        let number = (u32::from(level) - 4) * 2;
        let (one, two) = (Quarter::Entry(number), Quarter::Entry(number + 1));
        push_four(&mut text, level, [one, two, two, one])?;
        if level < 31 {
            push_four(&mut text, level, [two, one, one, two])?;
        }
    }
    Ok(text)
}

/// The same with the two leaves, or the two squares of level 4, in each other's place.
fn checkered_amiss(alloc: Global, leaves: [Written; 2], turned: u8) -> Result<Vec<u8>, AllocError> {
    let mut text = state_of(alloc, 57)?;
    push_even_leaf(&mut text, leaves[0])?;
    push_even_leaf(&mut text, leaves[1])?;
    for level in 4..32_u8 {
        let number = (u32::from(level) - 4) * 2;
        let (one, two) = if level == turned {
            (Quarter::Entry(number + 1), Quarter::Entry(number))
        } else {
            (Quarter::Entry(number), Quarter::Entry(number + 1))
        };
        push_four(&mut text, level, [one, two, two, one])?;
        if level < 31 {
            push_four(&mut text, level, [two, one, one, two])?;
        }
    }
    Ok(text)
}

/// With other leaves it is another plane's text; with the squares of a level turned round, the entries are
/// not in the order of the walk, which meets the second before the first.
#[test]
fn entries_stand_in_the_order_of_their_walk(rt: HostRuntime) -> Result<(), Fail> {
    let alloc = rt.alloc();
    assert!(rt; checkered_amiss(alloc, [ONE, TWO], 0)? == checkered(alloc)?);
    assert!(rt; is_told_again(alloc, &checkered_amiss(alloc, [TWO, ONE], 0)?)?);
    for turned in 4..32_u8 {
        let text = checkered_amiss(alloc, [ONE, TWO], turned)?;
        assert_eq!(rt; fault_of(alloc, &text)?, Some(ReadFault::NotCanonical));
    }
    Ok(())
}

/// The write at a column and a row, counted from the plane's corner.
pub fn at_corner(plane: &Plane, column: u32, row: u32) -> Write {
    plane.get(coordinate(column), coordinate(row))
}

/// The coordinate of a column or a row.
fn coordinate(place: u32) -> i32 {
    (place & 0x7fff_ffff) as i32 - 0x4000_0000
}

/// The state of a cell of the checkered plane.
fn checkered_at(column: u32, row: u32) -> u8 {
    if ((column ^ row) >> 3).count_ones() % 2 == 0 {
        1
    } else {
        2
    }
}

/// A number by chance, the same in each run (Knuth's MMIX).
fn next(number: &mut u64) -> u32 {
    *number = number
        .wrapping_mul(6_364_136_223_846_793_005)
        .wrapping_add(1_442_695_040_888_963_407);
    (*number >> 33) as u32
}

/// How many of 1,000 cells by chance are in the state of the checkered plane.
fn cells_alike(plane: &Plane) -> u32 {
    let mut number = 53;
    let mut alike = 0_u32;
    for _ in 0..1000_u16 {
        let (column, row) = (next(&mut number), next(&mut number));
        if at_corner(plane, column, row).state == checkered_at(column, row) {
            alike = alike.saturating_add(1);
        }
    }
    alike
}

/// The number of squares of the plane that is read of a text, and how many of those cells it has.
fn shown(alloc: Global, rule: &Rule, text: &[u8]) -> Result<Option<(u32, u32)>, ReadFault> {
    let message = read(alloc, rule, text)?;
    Ok(
        message
            .plane()
            .map(|plane| (plane.nodes(), cells_alike(plane))),
    )
}

/// A blank of stamp 0 stands in each store beside the squares of its plane.
#[test]
fn few_bytes_tell_all_cells(rt: HostRuntime) -> Result<(), Fail> {
    let alloc = rt.alloc();
    let (even, checkered) = (even(alloc)?, checkered(alloc)?);
    assert_eq!(rt; (even.len(), checkered.len()), (1179, 2323));
    assert!(rt; is_told_again(alloc, &even)? && is_told_again(alloc, &checkered)?);
    let rule = brians_brain()?;
    assert_eq!(rt; shown(alloc, &rule, &checkered)?, Some((58, 1000)));
    assert_eq!(rt;
        shown(alloc, &rule, &even)?.map(|(nodes, _)| nodes),
        Some(30)
    );
    Ok(())
}

/// A corner of the plane: which quarter it lies in at each level, and its cell's place in a leaf.
#[derive(Clone, Copy)]
struct Corner {
    quarter: usize,
    place: usize,
    column: u32,
    row: u32,
}

const LAST: u32 = 0x7fff_ffff;

static CORNERS: [Corner; 4] = [
    Corner {
        quarter: 0,
        place: 0,
        column: 0,
        row: 0,
    },
    Corner {
        quarter: 1,
        place: 7,
        column: LAST,
        row: 0,
    },
    Corner {
        quarter: 2,
        place: 56,
        column: 0,
        row: LAST,
    },
    Corner {
        quarter: 3,
        place: 63,
        column: LAST,
        row: LAST,
    },
];

/// The writes of a leaf with one at a place.
fn push_one(text: &mut Vec<u8>, at: usize) -> Result<(), AllocError> {
    for place in 0..64 {
        let write = if place == at {
            ONE
        } else {
            Written { stamp: 0, state: 0 }
        };
        push_write(text, write)?;
    }
    Ok(())
}

/// The state of a plane with one cell, in a corner.
fn in_corner(alloc: Global, corner: Corner) -> Result<Vec<u8>, AllocError> {
    let mut text = state_of(alloc, 29)?;
    text.push(3)?;
    push_one(&mut text, corner.place)?;
    for level in 4..32_u8 {
        let below = Quarter::Entry(u32::from(level) - 4);
        push_corner(&mut text, level, corner.quarter, below)?;
    }
    Ok(text)
}

/// Lists a square that has one quarter with cells.
fn push_corner(
    text: &mut Vec<u8>,
    level: u8,
    quarter: usize,
    below: Quarter,
) -> Result<(), AllocError> {
    text.push(level)?;
    for place in 0..4 {
        push_quarter(
            text,
            if place == quarter {
                below
            } else {
                Quarter::Blank(0)
            },
        )?;
    }
    Ok(())
}

/// The same in version 1: the quarters before it, 28 levels down, the leaf, and the quarters behind it.
pub fn first_in_corner(alloc: Global, quarter: usize, place: usize) -> Result<Vec<u8>, AllocError> {
    let mut text = bytes_of(alloc, FIRST)?;
    for _ in 0..28_u8 {
        text.push(2)?;
        push_blanks(&mut text, quarter)?;
    }
    text.push(1)?;
    push_one(&mut text, place)?;
    push_blanks(
        &mut text,
        3_usize.saturating_sub(quarter).saturating_mul(28),
    )?;
    Ok(text)
}

/// So many blanks of version 1 where nothing was written: each its tag and its stamp.
pub fn push_blanks(text: &mut Vec<u8>, count: usize) -> Result<(), AllocError> {
    for _ in 0..count {
        text.extend_from_slice(&[0; 9])?;
    }
    Ok(())
}

/// The write in the corner that is read of a text.
fn corner_read(
    alloc: Global,
    rule: &Rule,
    text: &[u8],
    corner: Corner,
) -> Result<Option<Write>, ReadFault> {
    let message = read(alloc, rule, text)?;
    Ok(
        message
            .plane()
            .map(|plane| at_corner(plane, corner.column, corner.row)),
    )
}

#[test]
fn the_corners_of_the_plane_are_read(rt: HostRuntime) -> Result<(), Fail> {
    let rule = brians_brain()?;
    let write = Write {
        stamp: 65537,
        state: 1,
    };
    for corner in CORNERS {
        let text = in_corner(rt.alloc(), corner)?;
        let first = first_in_corner(rt.alloc(), corner.quarter, corner.place)?;
        assert_eq!(rt; corner_read(rt.alloc(), &rule, &text, corner)?, Some(write));
        assert_eq!(rt;
            corner_read(rt.alloc(), &rule, &first, corner)?,
            Some(write)
        );
        assert!(rt; is_told_again(rt.alloc(), &text)?);
        assert!(rt; rewritten(rt.alloc(), &rule, &first)? == Some(text));
    }
    Ok(())
}

/// How many squares of level 25 the plane has.
const SQUARES: u32 = 4096;

/// A state of version 1 in which each square of level 25 is blank with a stamp of its own.
fn wide(alloc: Global) -> Result<Vec<u8>, AllocError> {
    let mut text = bytes_of(alloc, FIRST)?;
    for square in 0..SQUARES {
        push_opened(&mut text, square)?;
        text.push(0)?;
        text.extend_from_slice(&(u64::from(square) * 65536 + 65537).to_be_bytes())?;
    }
    Ok(text)
}

/// The tags of the squares of higher levels that begin with a square of level 25.
fn push_opened(text: &mut Vec<u8>, square: u32) -> Result<(), AllocError> {
    let levels = square.trailing_zeros().min(12) / 2;
    for _ in 0..levels {
        text.push(2)?;
    }
    Ok(())
}

/// The square of level 25 in which a column and a row lie: their first six digits, one of the row before each
/// of the column.
fn square_of(column: u32, row: u32) -> u32 {
    let mut square = 0_u32;
    for bit in 0..6_u32 {
        square = square << 2 | (row >> (30 - bit) & 1) << 1 | column >> (30 - bit) & 1;
    }
    square
}

/// How many of 1,000 places by chance have the write of their square.
fn squares_alike(plane: &Plane) -> u32 {
    let mut number = 59;
    let mut alike = 0_u32;
    for _ in 0..1000_u16 {
        let (column, row) = (next(&mut number), next(&mut number));
        let stamp = u64::from(square_of(column, row)) * 65536 + 65537;
        if at_corner(plane, column, row) == (Write { stamp, state: 0 }) {
            alike = alike.saturating_add(1);
        }
    }
    alike
}

fn wide_shown(alloc: Global, rule: &Rule, text: &[u8]) -> Result<Option<(u32, u32)>, ReadFault> {
    let message = read(alloc, rule, text)?;
    Ok(
        message
            .plane()
            .map(|plane| (plane.nodes(), squares_alike(plane))),
    )
}

/// In version 2 it has 1,024 squares of four blanks and 341 of four entries.
#[test]
fn a_wide_state_is_read_whole(rt: HostRuntime) -> Result<(), Fail> {
    let alloc = rt.alloc();
    let rule = brians_brain()?;
    let first = wide(alloc)?;
    assert_eq!(rt; wide_shown(alloc, &rule, &first)?, Some((5462, 1000)));
    let text = rewritten(alloc, &rule, &first)?.ok_or("a state")?;
    assert_eq!(rt; text.len(), 14 + 1024 * 37 + 341 * 21);
    assert!(rt; is_told_again(alloc, &text)?);
    assert_eq!(rt; wide_shown(alloc, &rule, &text)?, Some((5462, 1000)));
    Ok(())
}
