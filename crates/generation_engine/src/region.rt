//! Columns and rows of the middle of a universe.

ghost use Rattle.std.specs.Prelude.{◌≡◌, ◌≤◌, ◌↔◌, ◌&&◌, ◌==◌, ◌+◌, IsTrue, Some, pos, ◌+ℤ◌};
ghost use Rattle.generation_engine.specs.Extent.{IsWidened};
ghost use Rattle.generation_engine.specs.Placed.{HasColumnsOf};
ghost use Rattle.generation_engine.specs.Region.{HaveCommon, IsNarrow, IsRegionOf, has_region, is_in_region, middle_coordinate};

use crate::gathered::LEAST;
use crate::placed::PlacedSquare;
use crate::walk::side_of;
use pattern_cells::Window;

/// The columns from `left` up to `right` and the rows from `top` up to `bottom`, without these two ends.
/// They count from the corner of the middle, and may reach past it.
#[derive(Clone, Copy)]
pub(crate) struct Region {
    pub left: u64,
    pub right: u64,
    pub top: u64,
    pub bottom: u64,
}

impl Region {
    /// The columns and rows of a window.
    pub(crate) fn of_window(window: Window) -> Region
        ensures { IsRegionOf window result }
    {
        let left = from_middle_edge(window.x);
        let top = from_middle_edge(window.y);
        Region {
            left,
            right: left + u64::from(window.width),
            top,
            bottom: top + u64::from(window.height),
        }
    }

    /// The window that has these columns and rows.
    pub(crate) fn window(self) -> Window
        requires { IsNarrow self }
        ensures left { result.x ≡ middle_coordinate self.left }
        ensures right { (result.x +ℤ pos result.width) ≡ middle_coordinate self.right }
        ensures top { result.y ≡ middle_coordinate self.top }
        ensures bottom { (result.y +ℤ pos result.height) ≡ middle_coordinate self.bottom }
    {
        Window {
            x: (self.left as i64 + LEAST) as i32,
            y: (self.top as i64 + LEAST) as i32,
            width: (self.right - self.left) as u32,
            height: (self.bottom - self.top) as u32,
        }
    }

    /// The columns and rows of a square.
    pub(crate) fn of_square(square: &PlacedSquare) -> Region
        requires { square.now.level ≤ 28 }
        ensures { HasColumnsOf square.now result }
    {
        let side = u64::from(side_of(square.level));
        let left = u64::from(square.corner.left);
        let top = u64::from(square.corner.top);
        Region {
            left,
            right: left + side,
            top,
            bottom: top + side,
        }
    }

    /// Whether it has a column and a row.
    pub(crate) fn has(self, column: u32, row: u32) -> bool
        ensures { result ≡ is_in_region self column row }
    {
        let column = u64::from(column);
        let row = u64::from(row);
        self.left <= column && column < self.right && (self.top <= row && row < self.bottom)
    }

    /// Whether two regions have a column and a row in common.
    pub(crate) fn meets(self, other: Region) -> bool
        ensures { IsTrue result ↔ HaveCommon self other }
    {
        self.left.max(other.left) < self.right.min(other.right)
            && self.top.max(other.top) < self.bottom.min(other.bottom)
    }

    /// Whether it has all columns and rows of another.
    pub(crate) fn has_all(self, other: Region) -> bool
        ensures { result ≡ has_region self other }
    {
        self.left <= other.left
            && other.right <= self.right
            && (self.top <= other.top && other.bottom <= self.bottom)
    }
}

/// How many columns a coordinate is from the left edge of the middle, or rows from the upper one.
fn from_middle_edge(coordinate: i32) -> u64
    ensures { pos result ≡ (coordinate +ℤ pos 2147483648) }
{
    (i64::from(coordinate) - LEAST) as u64
}

/// The least region that has what was found, and a column and a row too.
pub(crate) fn widened(found: Option<Region>, column: u32, row: u32) -> Region
    ensures { IsWidened (λ u v. u == column && v == row) found (Some result) }
{
    let column = u64::from(column);
    let row = u64::from(row);
    let Some(found) = found else {
        return Region {
            left: column,
            right: column + 1,
            top: row,
            bottom: row + 1,
        };
    };
    Region {
        left: found.left.min(column),
        right: found.right.max(column + 1),
        top: found.top.min(row),
        bottom: found.bottom.max(row + 1),
    }
}
