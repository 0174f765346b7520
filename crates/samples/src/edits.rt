//! Random edits near a place, and what an edit writes by its own list.

use edit_stamps::{Cell, Corner, Edit, EditFault, Rect, Stamp, Write};
use generations_rule::Rule;
use multistate_rle::parse;
use pattern_cells::Pattern;
use std::alloc::{AllocError, Global};

/// How far from their centre edits are drawn, in columns and rows.
pub const REACH: i32 = 12;

/// The plane's corners, its middle, the middles of its edges, and a place inside a leaf.
pub static CENTRES: [Corner; 8] = [
    Corner {
        x: -0x4000_0000,
        y: -0x4000_0000,
    },
    Corner {
        x: 0x3fff_ffff,
        y: -0x4000_0000,
    },
    Corner {
        x: -0x4000_0000,
        y: 0x3fff_ffff,
    },
    Corner {
        x: 0x3fff_ffff,
        y: 0x3fff_ffff,
    },
    Corner { x: 0, y: 0 },
    Corner {
        x: 0,
        y: 0x3fff_ffff,
    },
    Corner {
        x: -0x4000_0000,
        y: 0,
    },
    Corner { x: 1021, y: -523 },
];

/// A box of five columns and four rows, some of it dead.
static PATTERN: &[u8] = b"x = 5, y = 4\n.A2.B$3A$$.2B.A!";

/// The next number of Knuth's generator MMIX.
pub fn next(number: &mut u64) -> u64 {
    *number = number
        .wrapping_mul(6_364_136_223_846_793_005)
        .wrapping_add(1_442_695_040_888_963_407);
    *number >> 33
}

/// A coordinate of the plane near another.
fn near(centre: i32, number: &mut u64) -> i32 {
    let offset = (next(number) % 24) as i32 - REACH;
    centre
        .saturating_add(offset)
        .max(-0x4000_0000)
        .min(0x3fff_ffff)
}

fn cell_near(centre: Corner, number: &mut u64) -> Cell {
    Cell {
        x: near(centre.x, number),
        y: near(centre.y, number),
        state: (next(number) % 4) as u8,
    }
}

fn cells_near(alloc: Global, centre: Corner, number: &mut u64) -> Result<Vec<Cell>, AllocError> {
    let mut list = Vec::new(alloc);
    for _ in 0..next(number) % 60 + 1 {
        list.push(cell_near(centre, number))?;
    }
    Ok(list)
}

fn pattern(alloc: Global) -> Result<Pattern, EditFault> {
    parse(alloc, PATTERN).or(Err(EditFault::Nothing))
}

/// An edit near a place: cells, a clear or a paste. A clear or a paste that leaves the plane is none.
pub fn edit_near(
    alloc: Global,
    rule: &Rule,
    stamp: Stamp,
    centre: Corner,
    number: &mut u64,
) -> Result<Edit, EditFault> {
    let x = near(centre.x, number);
    let y = near(centre.y, number);
    match next(number) % 4 {
        0 => {
            let area = Rect {
                x,
                y,
                width: (next(number) % 12) as u32 + 1,
                height: (next(number) % 12) as u32 + 1,
            };
            Edit::clear(alloc, stamp, area)
        }
        1 => Edit::paste_copy(alloc, rule, stamp, &pattern(alloc)?, x, y),
        _ => Edit::cells(alloc, rule, stamp, &cells_near(alloc, centre, number)?),
    }
}

/// What an edit writes at a place, by its list and its area.
pub fn write_by(edit: &Edit, x: i32, y: i32) -> Write {
    let stamp = edit.stamp().number();
    let mut cells = edit.listed_cells().iter();
    match cells.find(|cell| cell.x == x && cell.y == y) {
        Some(cell) => Write {
            stamp,
            state: cell.state,
        },
        None if edit.area().is_some_and(|area| area.has(x, y)) => Write { stamp, state: 0 },
        None => Write::UNWRITTEN,
    }
}
