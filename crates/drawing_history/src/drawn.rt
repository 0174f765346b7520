//! What is kept of one drawing.

ghost use Rattle.std.specs.Prelude.{◌≡◌, ◌≤◌, ◌-◌, ◌^◌, min};
ghost use Rattle.drawing_history.specs.Drawings.{cells_of, kept_within, most_cells};

use crate::stroke::{Stroke, count_cells};

/// The greatest number of drawings of a history.
pub const MOST_DRAWINGS: usize = 100;

/// The greatest number of cells of a history, 2^22: of all of its drawings together.
pub const MOST_CELLS: usize = 0x40_0000;

/// What is kept of a drawing: all of its strokes, or nothing, where it changed more cells than are kept.
#[derive(Drop)]
pub enum Drawn {
    /// Its strokes, in the order in which they were drawn.
    Strokes(Vec<Stroke>),
    /// It cannot be taken back.
    TooMuch,
}

/// What is kept of a drawing where there is room for so many cells.
pub(crate) fn kept_within(room: usize, strokes: Vec<Stroke>) -> Drawn
    requires { room ≤ most_cells }
    ensures { result ≡ kept_within room strokes }
{
    if count_cells(&strokes) <= room {
        Drawn::Strokes(strokes)
    } else {
        Drawn::TooMuch
    }
}

/// How many cells a drawing has; the greatest number where it has more.
pub(crate) fn count_of(drawing: &Drawn) -> usize
    ensures { result ≡ min (cells_of drawing.now) (2 ^ 64 - 1) }
{
    match drawing {
        Drawn::Strokes(strokes) => count_cells(strokes),
        Drawn::TooMuch => 0,
    }
}
