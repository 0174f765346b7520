//! States of version 1, read square by square into pieces of the plane.

use crate::fields::Fields;
use crate::slow::writes::{LEAF, SlowWrite, blank, blank_stamp, write};
use delta_exchange::ReadFault;
use std::alloc::Global;

/// A square of the plane that is blank, or a leaf.
#[derive(Drop)]
pub struct Piece {
    pub column: u32,
    pub row: u32,
    /// How many columns and rows it has.
    pub side: u32,
    /// One write for all of it, or 64 row by row.
    pub writes: Vec<SlowWrite>,
}

/// Where a square lies, and how many levels it is above a leaf.
#[derive(Clone, Copy)]
struct Corner {
    column: u32,
    row: u32,
}

/// The side of a square so many levels above a leaf.
fn side_of(above: u32) -> u32 {
    8_u32.wrapping_shl(above)
}

impl Corner {
    /// The corners of the quarters of a square so many levels above a leaf: NW, NE, SW, SE.
    fn quarters(self, above: u32) -> [Corner; 4] {
        let half = side_of(above.saturating_sub(1));
        let (column, row) = (self.column, self.row);
        let (east, south) = (column.wrapping_add(half), row.wrapping_add(half));
        [
            Corner { column, row },
            Corner { column: east, row },
            Corner { column, row: south },
            Corner {
                column: east,
                row: south,
            },
        ]
    }
}

/// The whole plane, 28 levels above a leaf.
pub fn pieces(
    alloc: Global,
    fields: &mut Fields<'_>,
    states: u16,
) -> Result<Vec<Piece>, ReadFault> {
    let mut pieces = Vec::new(alloc);
    let corner = Corner { column: 0, row: 0 };
    square(alloc, fields, states, corner, 28, &mut pieces)?;
    Ok(pieces)
}

/// A square so many levels above a leaf; the stamp with which it is blank, if it is.
fn square(
    alloc: Global,
    fields: &mut Fields<'_>,
    states: u16,
    corner: Corner,
    above: u32,
    pieces: &mut Vec<Piece>,
) -> Result<Option<u64>, ReadFault> {
    match fields.byte()? {
        0 => blank_square(alloc, fields, corner, above, pieces),
        1 if above == 0 => leaf(alloc, fields, states, corner, pieces),
        2 if above > 0 => {
            let [nw, ne, sw, se] = corner.quarters(above);
            let below = above - 1;
            let nw = square(alloc, fields, states, nw, below, pieces)?;
            let ne = square(alloc, fields, states, ne, below, pieces)?;
            let sw = square(alloc, fields, states, sw, below, pieces)?;
            let se = square(alloc, fields, states, se, below, pieces)?;
            if nw.is_some() && nw == ne && nw == sw && nw == se {
                return Err(ReadFault::NotCanonical);
            }
            Ok(None)
        }
        _ => Err(ReadFault::NotCanonical),
    }
}

fn blank_square(
    alloc: Global,
    fields: &mut Fields<'_>,
    corner: Corner,
    above: u32,
    pieces: &mut Vec<Piece>,
) -> Result<Option<u64>, ReadFault> {
    let stamp = blank(fields)?;
    let all = SlowWrite { stamp, state: 0 };
    pieces.push(Piece {
        column: corner.column,
        row: corner.row,
        side: side_of(above),
        writes: Vec::from_slice(alloc, &[all])?,
    })?;
    Ok(Some(stamp))
}

fn leaf(
    alloc: Global,
    fields: &mut Fields<'_>,
    states: u16,
    corner: Corner,
    pieces: &mut Vec<Piece>,
) -> Result<Option<u64>, ReadFault> {
    let writes = leaf_writes(alloc, fields, states)?;
    pieces.push(Piece {
        column: corner.column,
        row: corner.row,
        side: 8,
        writes,
    })?;
    Ok(None)
}

/// The writes of a leaf, which is not blank.
pub fn leaf_writes(
    alloc: Global,
    fields: &mut Fields<'_>,
    states: u16,
) -> Result<Vec<SlowWrite>, ReadFault> {
    let mut writes = Vec::new(alloc);
    for _ in 0..LEAF {
        writes.push(write(fields, states)?)?;
    }
    if blank_stamp(&writes).is_some() {
        return Err(ReadFault::NotCanonical);
    }
    Ok(writes)
}
