//! Which places of a plane are looked for.

ghost use Rattle.std.specs.Prelude.{◌≡◌, ◌≤◌, ◌+◌, ◌+ℤ◌, pos, filter, IfOk};
ghost use Rattle.std.specs.List.{list_any};
ghost use Rattle.edit_stamps.specs.Plane.{least};
ghost use Rattle.pattern_cells.specs.Cells.{place_of};
ghost use Rattle.stamped_tree.specs.Sought.{IsNarrowed, covers, covers_side, is_in_some, meets, meets_side, seeks};

use crate::corner::Corner;
use edit_stamps::Rect;
use pattern_cells::Cell;
use std::alloc::{AllocError, Global};

/// The least coordinate of the plane.
const LEAST: i64 = -0x4000_0000;

/// Which places are looked for, as far as a square has them.
#[derive(Drop)]
pub(crate) enum Sought {
    /// All of them.
    All,
    /// Those that one of these areas has.
    InAreas(Vec<Rect>),
}

impl Sought {
    /// Whether the place of a cell is looked for.
    pub(crate) fn has(&self, cell: Cell) -> bool
        ensures { result ≡ seeks self.now (place_of cell) }
    {
        match self {
            Sought::All => true,
            Sought::InAreas(areas) => is_in_some(areas, cell),
        }
    }

    /// What is looked for on a square with so many columns and rows. None where nothing is, so that the square need not be
    /// gone into; all, where one area covers it, so that its places need not be looked at one by one.
    pub(crate) fn on_square(
        &self,
        alloc: Global,
        corner: Corner,
        side: u32,
    ) -> Result<Option<Sought>, AllocError>
        requires left { corner.left + side ≤ 2147483648 }
        requires top { corner.top + side ≤ 2147483648 }
        ensures { IfOk result (IsNarrowed corner.left corner.top side (seeks self.now)) }
    {
        match self {
            Sought::All => Ok(Some(Sought::All)),
            Sought::InAreas(areas) => on_square_of(alloc, areas, corner, side),
        }
    }
}

/// Whether one of some areas has the place of a cell.
fn is_in_some(areas: &[Rect], cell: Cell) -> bool
    ensures { result ≡ is_in_some areas.now (place_of cell) }
{
    areas.iter().any(|area| area.has(cell.x, cell.y))
}

/// What some areas have of a square.
fn on_square_of(
    alloc: Global,
    areas: &[Rect],
    corner: Corner,
    side: u32,
) -> Result<Option<Sought>, AllocError>
    requires left { corner.left + side ≤ 2147483648 }
    requires top { corner.top + side ≤ 2147483648 }
    ensures { IfOk result (IsNarrowed corner.left corner.top side (is_in_some areas.now)) }
{
    if is_covered(areas, corner, side) {
        return Ok(Some(Sought::All));
    }
    let met = meeting(alloc, areas, corner, side)?;
    if met.is_empty() {
        return Ok(None);
    }
    Ok(Some(Sought::InAreas(met)))
}

/// Whether one of some areas covers a square.
fn is_covered(areas: &[Rect], corner: Corner, side: u32) -> bool
    requires left { corner.left + side ≤ 2147483648 }
    requires top { corner.top + side ≤ 2147483648 }
    ensures { result ≡ list_any (covers corner.left corner.top side) areas.now }
{
    areas.iter().any(|area| covers(*area, corner, side))
}

/// Those of some areas that meet a square.
fn meeting(
    alloc: Global,
    areas: &[Rect],
    corner: Corner,
    side: u32,
) -> Result<Vec<Rect>, AllocError>
    requires left { corner.left + side ≤ 2147483648 }
    requires top { corner.top + side ≤ 2147483648 }
    ensures { IfOk result (λ met. met.items ≡ filter (meets corner.left corner.top side) areas.now) }
{
    let met = areas
        .iter()
        .copied()
        .filter(|area| meets(*area, corner, side))
        .collect(alloc)?;
    Ok(met)
}

/// Whether an area has a place of a square.
fn meets(area: Rect, corner: Corner, side: u32) -> bool
    requires left { corner.left + side ≤ 2147483648 }
    requires top { corner.top + side ≤ 2147483648 }
    ensures { result ≡ meets corner.left corner.top side area }
{
    meets_side(area.x, area.width, corner.left, corner.left + side)
        && meets_side(area.y, area.height, corner.top, corner.top + side)
}

/// Whether an area has all places of a square.
fn covers(area: Rect, corner: Corner, side: u32) -> bool
    requires left { corner.left + side ≤ 2147483648 }
    requires top { corner.top + side ≤ 2147483648 }
    ensures { result ≡ covers corner.left corner.top side area }
{
    covers_side(area.x, area.width, corner.left, corner.left + side)
        && covers_side(area.y, area.height, corner.top, corner.top + side)
}

fn meets_side(start: i32, length: u32, from: u32, to: u32) -> bool
    ensures { result ≡ meets_side start length from to }
{
    i64::from(start) < coordinate_of(to)
        && coordinate_of(from) < i64::from(start) + i64::from(length)
}

fn covers_side(start: i32, length: u32, from: u32, to: u32) -> bool
    ensures { result ≡ covers_side start length from to }
{
    i64::from(start) <= coordinate_of(from)
        && coordinate_of(to) <= i64::from(start) + i64::from(length)
}

/// The coordinate of a column, or of a row; also of one past the last.
fn coordinate_of(column: u32) -> i64
    ensures { result ≡ (least +ℤ pos column) }
{
    i64::from(column) + LEAST
}
