//! Cells in order.

ghost use Rattle.std.specs.Prelude.{◌≡◌, IfOk};
ghost use Rattle.edit_stamps.specs.Making.{settled};

use pattern_cells::Cell;
use std::alloc::AllocError;

/// The cells by `y`, then `x`, each coordinate once: of those of one coordinate the last.
pub fn settled_cells(mut cells: Vec<Cell>) -> Result<Vec<Cell>, AllocError>
    ensures { IfOk result (λ ordered. ordered.items ≡ settled cells.items) }
{
    cells.reverse();
    cells.sort_by_key(|cell| (cell.y, cell.x))?;
    // The sort is stable, so the last cell of a coordinate stands first of its run.
    cells.dedup_by_key(|cell| (cell.y, cell.x));
    Ok(cells)
}
