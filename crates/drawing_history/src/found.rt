//! What is found to be taken back.

use pattern_cells::Cell;

/// What an undo, or a redo, finds.
#[derive(Drop)]
pub enum Found {
    /// Nothing was drawn, or nothing of the last drawing is left: others drew over all that it changed.
    Nothing,
    /// The last drawing changed more cells than are kept.
    TooMuch,
    /// These cells are to be drawn, at least one.
    Cells(Vec<Cell>),
}
