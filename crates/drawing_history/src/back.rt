//! What takes a drawing back.

ghost use Rattle.std.specs.Prelude.{◌≡◌, ◌++◌, IfOk, OnOk};
ghost use Rattle.drawing_history.specs.Strokes.{cells_back, is_still, stroke_back};
ghost use Rattle.stamped_tree.specs.Plane.{map_of};

use crate::stroke::Stroke;
use edit_stamps::Stamp;
use pattern_cells::Cell;
use stamped_tree::Plane;
use std::alloc::{AllocError, Global};

/// The cells to draw so that a drawing of a plane is taken back, stroke by stroke: those whose writes are
/// still the drawing's, with the states that they had before. Where others drew since, no cell is told. They
/// are meant for `Edit::cells`, which takes up to 2^20 of them. The only error is want of memory.
pub fn cells_back(alloc: Global, plane: &Plane, strokes: &[Stroke]) -> Result<Vec<Cell>, AllocError>
    ensures { IfOk result (λ cells. cells.items ≡ cells_back (map_of plane.now) strokes.now) }
{
    let mut cells = Vec::new(alloc);
    for stroke in strokes {
        push_stroke_back(plane, stroke, &mut cells)?;
    }
    Ok(cells)
}

/// Puts those of one stroke last.
fn push_stroke_back(plane: &Plane, stroke: &Stroke, cells: &mut Vec<Cell>) -> Result<(), AllocError>
    ensures { OnOk result (cells.new.items ≡ cells.old.items ++ stroke_back (map_of plane.now) stroke.now) }
{
    for cell in &stroke.earlier {
        if is_still(plane, stroke.stamp, *cell) {
            cells.push(*cell)?;
        }
    }
    Ok(())
}

/// Whether the write at a cell's place still has a stamp.
fn is_still(plane: &Plane, stamp: Stamp, cell: Cell) -> bool
    ensures { result ≡ is_still (map_of plane.now) stamp cell }
{
    plane.get(cell.x, cell.y).stamp == stamp.number()
}
