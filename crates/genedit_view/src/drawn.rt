//! A plane of a file's cells.

ghost use Rattle.std.specs.Prelude.{◌≡◌, ◌<◌, ◌≤◌, IfOk, IsTrue, None, OnOk, length, true, unwrap_or};
ghost use Rattle.generations_rule.specs.Place.{Place};
ghost use Rattle.edit_stamps.specs.Edit.{has_states_below, listed, most_cells};
ghost use Rattle.edit_stamps.specs.PlaneMap.{HasStatesBelow};
ghost use Rattle.stamped_tree.specs.Plane.{map_of};
ghost use Rattle.cell_pictures.specs.Shown.{state_at};
ghost use Rattle.genedit_view.specs.Cells.{ArePatternCells};

use edit_stamps::{Cell, Edit, EditFault, MOST_CELLS, Stamp};
use generations_rule::Rule;
use stamped_tree::Plane;
use std::alloc::{AllocError, Global};

/// The plane on which these cells are drawn, and nothing else. It has room for 2^32 - 1 squares, more than 2^24 cells
/// need; want of room is answered as want of memory.
pub fn plane_of(alloc: Global, rule: &Rule, cells: &[Cell]) -> Result<Plane, AllocError>
    requires { ArePatternCells true rule.now cells.now }
    ensures states { IfOk result (λ plane. (c : Place) → (map_of plane c).state ≡ state_at cells.now c) }
    ensures below { IfOk result (λ plane. HasStatesBelow rule.now.states (map_of plane)) }
{
    let mut plane = Plane::with_room(alloc, u32::MAX)?;
    draw_all(alloc, rule, cells, &mut plane)?;
    Ok(plane)
}

/// Draws cells, in edits of as many as one may have; it calls itself once for each.
fn draw_all(alloc: Global, rule: &Rule, cells: &[Cell], plane: &mut Plane) -> Result<(), AllocError>
    requires { ArePatternCells true rule.now cells.now }
    ensures { OnOk result ((c : Place) → (map_of plane.new c).state ≡ unwrap_or (listed cells.now c) (map_of plane.old c).state) }
{
    if cells.len() <= MOST_CELLS {
        return draw_some(alloc, rule, cells, plane);
    }
    let (front, behind) = cells.split_at(MOST_CELLS);
    draw_all(alloc, rule, behind, plane)?;
    draw_some(alloc, rule, front, plane)
}

/// Draws cells in one edit, if there is one.
fn draw_some(
    alloc: Global,
    rule: &Rule,
    cells: &[Cell],
    plane: &mut Plane,
) -> Result<(), AllocError>
    requires cells { ArePatternCells true rule.now cells.now }
    requires few { length cells.now ≤ most_cells }
    ensures { OnOk result ((c : Place) → (map_of plane.new c).state ≡ unwrap_or (listed cells.now c) (map_of plane.old c).state) }
{
    if cells.is_empty() {
        return Ok(());
    }
    let edit = edit_of(alloc, rule, cells)?;
    let root = plane.root().part();
    match plane.add_overwritten(root, &edit) {
        Ok(drawn) => {
            plane.set_root(drawn);
            Ok(())
        }
        Err(_) => Err(AllocError),
    }
}

/// The edit that draws these cells, of which there is one at least.
fn edit_of(alloc: Global, rule: &Rule, cells: &[Cell]) -> Result<Edit, AllocError>
    requires cells { ArePatternCells true rule.now cells.now }
    requires some { 0 < length cells.now }
    requires few { length cells.now ≤ most_cells }
    ensures cells { IfOk result (λ edit. edit.cells ≡ cells.now) }
    ensures area { IfOk result (λ edit. edit.area ≡ None) }
    ensures stamp { IfOk result (λ edit. 0 < edit.stamp) }
{
    let Some(stamp) = Stamp::new(1, 1) else {
        unreachable!()
    };
    match Edit::cells(alloc, rule, stamp, cells) {
        Ok(edit) => Ok(edit),
        Err(EditFault::Memory) => Err(AllocError),
        Err(_) => unreachable!(),
    }
}
