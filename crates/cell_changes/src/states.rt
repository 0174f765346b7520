//! The states of places.

ghost use Rattle.std.specs.Prelude.{◌≡◌, OnOk};
ghost use Rattle.stamped_tree.specs.Plane.{map_of};
ghost use Rattle.cell_changes.specs.Put.{IsPlaceOf, Puts, has_changed, now_in};

use pattern_cells::Cell;
use stamped_tree::Plane;
use std::alloc::AllocError;

/// A cell's place, with its state in a plane.
pub fn now_in(plane: &Plane, cell: Cell) -> Cell
    ensures { result ≡ now_in (map_of plane.now) cell }
{
    Cell {
        x: cell.x,
        y: cell.y,
        state: plane.get(cell.x, cell.y).state,
    }
}

/// Whether the state of a cell's place in a plane is another one than the cell's.
pub fn has_changed(plane: &Plane, cell: Cell) -> bool
    ensures { result ≡ has_changed (map_of plane.now) cell }
{
    plane.get(cell.x, cell.y).state != cell.state
}

/// Puts the places of some cells last, with their states in a plane.
pub fn push_places(plane: &Plane, places: &[Cell], cells: &mut Vec<Cell>) -> Result<(), AllocError>
    ensures { OnOk result (Puts (map_of plane.now) (IsPlaceOf places.now) cells.old.items cells.new.items) }
{
    for place in places {
        cells.push(now_in(plane, *place))?;
    }
    Ok(())
}
