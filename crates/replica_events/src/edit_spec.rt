//! What is to be drawn.

use edit_stamps::Rect;
use lists::ListOf;
use pattern_cells::{Cell, Pattern};

/// What is to be drawn.
#[derive(Debug, Drop)]
pub enum EditSpec {
    /// These cells, in any order; of the entries at one coordinate the last wins.
    Cells(CellList),
    /// Every cell of a pattern's box, dead ones too, with the box's upper left corner at x and y.
    Copy(Pattern, i32, i32),
    /// The nonzero cells of a pattern alone, with its box's upper left corner at x and y.
    Or(Pattern, i32, i32),
    /// State 0 at every coordinate of an area.
    Clear(Rect),
}

/// The cells of a draw, in any order.
pub type CellList = ListOf<Cell>;
