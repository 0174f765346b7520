//! An edit, by the columns and rows of the plane.

ghost use Rattle.std.specs.Prelude.{◌≡◌, ◌<◌, ℕ, map, pos, IsTrue, IfOk, IfSome};
ghost use Rattle.generations_rule.specs.Place.{moved};
ghost use Rattle.edit_stamps.specs.Edit.{is_covered};
ghost use Rattle.edit_stamps.specs.Plane.{is_area_in_plane, is_in};
ghost use Rattle.stamped_tree.specs.Area.{is_in_area};
ghost use Rattle.stamped_tree.specs.OnPlane.{cell_on_plane};
ghost use Rattle.stamped_tree.specs.Plane.{from_edge};
ghost use Rattle.stamped_tree.specs.Tree.{plane_corner};

use crate::area::Area;
use crate::cells::ListedCell;
use edit_stamps::Rect;
use pattern_cells::Cell;
use std::alloc::{AllocError, Global};

/// The least coordinate of the plane.
const LEAST: i32 = -0x4000_0000;

/// The columns and rows of an area; none where there is no area.
pub fn area_on_plane(area: Option<Rect>) -> Area
    requires { IfSome area (λ r. IsTrue (is_area_in_plane r)) }
    ensures { (u v : ℕ) → u < 2147483648 → v < 2147483648 → is_in_area result u v ≡ is_covered area (moved plane_corner (pos u) (pos v)) }
{
    match area {
        Some(area) => rect_on_plane(area),
        None => Area {
            left: 0,
            right: 0,
            top: 0,
            bottom: 0,
        },
    }
}

fn rect_on_plane(rect: Rect) -> Area
    requires { IsTrue (is_area_in_plane rect) }
    ensures { (u v : ℕ) → u < 2147483648 → v < 2147483648 → is_in_area result u v ≡ is_in rect (moved plane_corner (pos u) (pos v)) }
{
    let left = columns_from_edge(rect.x);
    let top = columns_from_edge(rect.y);
    Area {
        left,
        right: left + rect.width,
        top,
        bottom: top + rect.height,
    }
}

/// Cells by their columns and rows, in the same order.
pub fn cells_on_plane(alloc: Global, cells: &[Cell]) -> Result<Vec<ListedCell>, AllocError>
    ensures { IfOk result (λ listed. listed.items ≡ map cell_on_plane cells.now) }
{
    let listed = cells.iter().map(|cell| listed_cell(cell)).collect(alloc)?;
    Ok(listed)
}

fn listed_cell(cell: &Cell) -> ListedCell
    ensures { result ≡ cell_on_plane cell.now }
{
    ListedCell {
        column: columns_from_edge(cell.x),
        row: columns_from_edge(cell.y),
        state: cell.state,
    }
}

/// How far a coordinate is from the least one.
fn columns_from_edge(coordinate: i32) -> u32
    ensures { result ≡ from_edge coordinate }
{
    coordinate.abs_diff(LEAST)
}
