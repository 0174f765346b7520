//! Places that may change.

ghost use Rattle.std.specs.Prelude.{◌≡◌, map, filter, filter_map, IfOk, OnOk};
ghost use Rattle.stamped_tree.specs.Plane.{map_of};
ghost use Rattle.cell_changes.specs.Put.{Puts, SomeLists, has_changed, now_in};

use crate::settling::settled_cells;
use crate::states::{has_changed, now_in, push_places};
use edit_stamps::{Edit, Rect};
use pattern_cells::Cell;
use stamped_tree::Plane;
use std::alloc::{AllocError, Global};
use std::marker::Model;

/// Places of a plane that may change as something is joined into it, each with the state that it had.
#[derive(Drop)]
pub struct Watched {
    cells: Vec<Cell>,
}

impl Model for Watched {
    ghost use Rattle.std.specs.Prelude.{List};
    ghost use Rattle.pattern_cells.specs.declared.cell.Cell.{Cell};

    ghost Value = { List Cell };

    ghost view = { λ w. w.cells.items };
}

impl Watched {
    ghost use Rattle.std.specs.Prelude.{IfOk};
    ghost use Rattle.edit_stamps.specs.Edit.{greatest};
    ghost use Rattle.stamped_writes.specs.Write.{Writes};
    ghost use Rattle.stamped_tree.specs.Plane.{map_of};
    ghost use Rattle.cell_changes.specs.Changes.{AreChanges, Watches, WatchesJoin};

    /// What may change in a plane by edits: the places that they list, and the cells in their areas whose
    /// state is not 0. Those are found by one walk, and what several areas have once.
    /// The only error is want of memory.
    pub fn of_edits(alloc: Global, plane: &Plane, edits: &[Edit]) -> Result<Watched, AllocError>
        ensures { IfOk result (λ watched. WatchesJoin watched (map_of plane.now) (greatest edits.now)) }
    {
        let areas = areas_of(alloc, edits)?;
        let mut cells = plane.walk_in(&areas)?;
        push_listed(plane, edits, &mut cells)?;
        Ok(Watched { cells })
    }

    /// What may change in a plane by a whole map, whether it is joined in or takes the plane's place: the cells
    /// of both whose state is not 0. Both are walked. The only error is want of memory.
    pub fn of_planes(plane: &Plane, other: &Plane) -> Result<Watched, AllocError>
        ensures joined { IfOk result (λ watched. WatchesJoin watched (map_of plane.now) (map_of other.now)) }
        ensures replaced { IfOk result (λ watched. Watches watched (map_of plane.now) (map_of other.now)) }
    {
        let mut cells = plane.walk()?;
        let others = other.walk()?;
        push_places(plane, &others, &mut cells)?;
        Ok(Watched { cells })
    }

    /// Those of the places whose state is another one now, with the state now, by `y`, then `x`, each once.
    /// The only error is want of memory.
    pub fn changes(&self, alloc: Global, now: &Plane) -> Result<Vec<Cell>, AllocError>
        ensures { IfOk result (λ cells. (before : Writes) → Watches self.now before (map_of now.now) → AreChanges before (map_of now.now) cells.items) }
    {
        let changed = changed_cells(alloc, &self.cells, now)?;
        settled_cells(changed)
    }

    /// Those of the places whose state is another one now, with the state that each had, by `y`, then `x`, each
    /// once. The only error is want of memory.
    pub fn earlier(&self, alloc: Global, now: &Plane) -> Result<Vec<Cell>, AllocError>
        ensures { IfOk result (λ cells. (before : Writes) → Watches self.now before (map_of now.now) → AreChanges (map_of now.now) before cells.items) }
    {
        let outdated = outdated_cells(alloc, &self.cells, now)?;
        settled_cells(outdated)
    }
}

/// Those of some cells whose state is another one in a plane, with their states there, in the same order.
fn changed_cells(alloc: Global, cells: &[Cell], now: &Plane) -> Result<Vec<Cell>, AllocError>
    ensures { IfOk result (λ changed. changed.items ≡ map (now_in (map_of now.now)) (filter (has_changed (map_of now.now)) cells.now)) }
{
    let changed = cells
        .iter()
        .filter(|cell| has_changed(now, **cell))
        .map(|cell| now_in(now, *cell))
        .collect(alloc)?;
    Ok(changed)
}

/// Those of some cells whose state is another one in a plane, as they are, in the same order.
fn outdated_cells(alloc: Global, cells: &[Cell], now: &Plane) -> Result<Vec<Cell>, AllocError>
    ensures { IfOk result (λ outdated. outdated.items ≡ filter (has_changed (map_of now.now)) cells.now) }
{
    let outdated = cells
        .iter()
        .copied()
        .filter(|cell| has_changed(now, *cell))
        .collect(alloc)?;
    Ok(outdated)
}

/// The areas of edits.
fn areas_of(alloc: Global, edits: &[Edit]) -> Result<Vec<Rect>, AllocError>
    ensures { IfOk result (λ areas. areas.items ≡ filter_map (λ e. e.area) edits.now) }
{
    let areas = edits.iter().filter_map(|edit| edit.area()).collect(alloc)?;
    Ok(areas)
}

/// Puts the places that edits list last.
fn push_listed(plane: &Plane, edits: &[Edit], cells: &mut Vec<Cell>) -> Result<(), AllocError>
    ensures { OnOk result (Puts (map_of plane.now) (SomeLists edits.now) cells.old.items cells.new.items) }
{
    for edit in edits {
        push_places(plane, edit.listed_cells(), cells)?;
    }
    Ok(())
}
