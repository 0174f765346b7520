//! Deltas, read edit by edit.

use crate::fields::Fields;
use crate::slow::writes::stamp;
use delta_exchange::ReadFault;
use std::alloc::Global;

/// A place word past the plane.
const BEYOND: u32 = 0x8000_0000;

/// The most cells of an edit.
const MOST_CELLS: u32 = 1 << 20;

/// A cell by its place words.
#[derive(Clone, Copy, PartialEq, Eq)]
pub struct SlowCell {
    pub x: u32,
    pub y: u32,
    pub state: u8,
}

/// An area by its place words and sides.
#[derive(Clone, Copy, PartialEq, Eq)]
pub struct SlowArea {
    pub x: u32,
    pub y: u32,
    pub width: u32,
    pub height: u32,
}

impl SlowArea {
    fn has(self, cell: SlowCell) -> bool {
        is_between(self.x, self.width, cell.x) && is_between(self.y, self.height, cell.y)
    }
}

/// Whether a place lies among so many from a first one on.
fn is_between(first: u32, count: u32, place: u32) -> bool {
    first <= place && u64::from(place) < u64::from(first) + u64::from(count)
}

/// What an edit says.
#[derive(Drop)]
pub struct SlowEdit {
    pub stamp: u64,
    pub area: Option<SlowArea>,
    pub cells: Vec<SlowCell>,
}

/// All edits of a delta, behind its head.
pub fn edits(
    alloc: Global,
    fields: &mut Fields<'_>,
    states: u16,
) -> Result<Vec<SlowEdit>, ReadFault> {
    let count = fields.word()?;
    let mut edits = Vec::new(alloc);
    for _ in 0..count {
        edits.push(edit(alloc, fields, states)?)?;
    }
    Ok(edits)
}

fn edit(alloc: Global, fields: &mut Fields<'_>, states: u16) -> Result<SlowEdit, ReadFault> {
    let stamp = stamp(fields)?;
    let area = match fields.byte()? {
        0 => None,
        1 => Some(area(fields)?),
        _ => return Err(ReadFault::NotCanonical),
    };
    let count = count(fields, area.is_some())?;
    let cells = cells(alloc, fields, states, area, count)?;
    Ok(SlowEdit { stamp, area, cells })
}

fn area(fields: &mut Fields<'_>) -> Result<SlowArea, ReadFault> {
    let mut group = Fields::of(fields.take(16)?);
    let area = SlowArea {
        x: group.word()?,
        y: group.word()?,
        width: group.word()?,
        height: group.word()?,
    };
    if leaves(area.x, area.width) || leaves(area.y, area.height) {
        return Err(ReadFault::OutOfPlane);
    }
    if area.width == 0 || area.height == 0 {
        return Err(ReadFault::Nothing);
    }
    Ok(area)
}

/// Whether so many places from a first one on leave the plane, or the first one does.
fn leaves(first: u32, count: u32) -> bool {
    first >= BEYOND || u64::from(first) + u64::from(count) > u64::from(BEYOND)
}

fn count(fields: &mut Fields<'_>, has_area: bool) -> Result<u32, ReadFault> {
    let count = fields.word()?;
    if count > MOST_CELLS {
        return Err(ReadFault::TooMany);
    }
    if count == 0 && !has_area {
        return Err(ReadFault::Nothing);
    }
    Ok(count)
}

fn cells(
    alloc: Global,
    fields: &mut Fields<'_>,
    states: u16,
    area: Option<SlowArea>,
    count: u32,
) -> Result<Vec<SlowCell>, ReadFault> {
    let mut cells = Vec::new(alloc);
    let mut last = None;
    for _ in 0..count {
        let cell = cell(fields, states)?;
        if !comes_after(last, cell) || !fits(area, cell) {
            return Err(ReadFault::NotCanonical);
        }
        last = Some(cell);
        cells.push(cell)?;
    }
    Ok(cells)
}

fn cell(fields: &mut Fields<'_>, states: u16) -> Result<SlowCell, ReadFault> {
    let mut group = Fields::of(fields.take(9)?);
    let cell = SlowCell {
        x: group.word()?,
        y: group.word()?,
        state: group.byte()?,
    };
    if u16::from(cell.state) >= states {
        return Err(ReadFault::StateRange);
    }
    if cell.x >= BEYOND || cell.y >= BEYOND {
        return Err(ReadFault::OutOfPlane);
    }
    Ok(cell)
}

/// Whether a cell comes after the last one by y, then x.
fn comes_after(last: Option<SlowCell>, cell: SlowCell) -> bool {
    match last {
        Some(last) => last.y < cell.y || last.y == cell.y && last.x < cell.x,
        None => true,
    }
}

/// Whether a cell may be listed in an edit with this area.
fn fits(area: Option<SlowArea>, cell: SlowCell) -> bool {
    match area {
        Some(area) => cell.state != 0 && area.has(cell),
        None => true,
    }
}
