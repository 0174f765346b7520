//! Squares over which an edit is written.

ghost use Rattle.std.specs.Prelude.{◌≡◌, ◌≤◌, ◌<◌, ◌+◌, IfOk, IsTrue, Err};
ghost use Rattle.square_store.specs.Squares.{Draws, IsAt, grid_at, side_at};
ghost use Rattle.square_store.specs.Store.{IsFullFor, IsGrown};
ghost use Rattle.square_store.specs.Pieces.{AddsPiecesOfGrid};
ghost use Rattle.edit_stamps.specs.Edit.{IsEdit};
ghost use Rattle.edit_stamps.specs.Stamp.{is_stamp};
ghost use Rattle.stamped_tree.specs.OnPlane.{plane_writes};
ghost use Rattle.stamped_tree.specs.Plane.{HoldPlaneWrites};
ghost use Rattle.stamped_tree.specs.Drawing.{drawn_grid};
ghost use Rattle.stamped_tree.specs.Drawn.{IsDrawn};
ghost use Rattle.stamped_tree.specs.Filled.{AreFilled};
ghost use Rattle.stamped_tree.specs.LeafKind.{plane_grid};
ghost use Rattle.stamped_tree.specs.Morton.{IsMortonRun, listed_in};
ghost use Rattle.stamped_tree.specs.Overwriting.{overwritten_grid};

use crate::area::{Area, side_of};
use crate::cells::{ListedCell, in_morton_order, quartered};
use crate::filled::{AreaKey, filled, keep};
use crate::leaf_draw::{leaf_at, overwritten_leaf};
use crate::leaf_kind::PlaneLeaf;
use crate::on_plane::{area_on_plane, cells_on_plane};
use edit_stamps::Edit;
use indexmap::IndexMap;
use keyed_hash::HashKey;
use square_store::{Part, Store, StoreFault};
use std::alloc::Global;

/// The square of the whole plane that an edit makes of one. Its cells are sorted once by their Morton
/// codes; on the way down those of a quarter are a slice of them.
pub(crate) fn draw_edit(
    alloc: Global,
    store: &mut Store<PlaneLeaf>,
    root: Part,
    edit: &Edit,
) -> Result<Part, StoreFault>
    requires root { IsAt store.old 28 root }
    ensures draws { IfOk result (Draws plane_grid 8 store.new 28 (overwritten_grid (grid_at plane_grid 8 store.old 28 root) (plane_writes edit.now))) }
    ensures edit { IsEdit edit.now }
    ensures grows { IsGrown plane_grid 8 store.old store.new }
    ensures writes { HoldPlaneWrites store.old → HoldPlaneWrites store.new }
    ensures pieces { AddsPiecesOfGrid plane_grid 8 store.old store.new 28 (overwritten_grid (grid_at plane_grid 8 store.old 28 root) (plane_writes edit.now)) }
    ensures full { result ≡ Err StoreFault.StoreFull → IsFullFor plane_grid 8 store.new 28 (overwritten_grid (grid_at plane_grid 8 store.old 28 root) (plane_writes edit.now)) }
{
    let stamp = edit.stamp().number();
    let listed = cells_on_plane(alloc, edit.listed_cells())?;
    let cells = in_morton_order(listed)?;
    let area = area_on_plane(edit.area());
    let mut kept = IndexMap::with_hasher(alloc, store.key());
    let on_plane = SquareEdit {
        stamp,
        area,
        cells: &cells,
    };
    let part = draw(store, &mut kept, 28, root, on_plane)?;
    Ok(part)
}

/// What an edit writes on a square: state 0 in an area, which counts from the square's corner, but for
/// the listed cells of the square, which count from the plane's.
#[derive(Clone, Copy)]
pub(crate) struct SquareEdit<'a> {
    pub stamp: u64,
    pub area: Area,
    pub cells: &'a [ListedCell],
}

/// What becomes of the square of a level at a part: the listed states at the listed cells and state 0
/// elsewhere in the area, both written with a stamp, and elsewhere what it had.
///
/// What no cell is listed in is made once for each level, area and part: where an area lies over few
/// squares, as over a blank, its border crosses them in eight ways a level, however long it is.
#[cycle(draw)]
pub(crate) fn draw(
    store: &mut Store<PlaneLeaf>,
    kept: &mut IndexMap<AreaKey, Part, HashKey>,
    level: u32,
    part: Part,
    edit: SquareEdit<'_>,
) -> Result<Part, StoreFault>
    requires level { level ≤ 28 }
    requires part { IsAt store.old level part }
    requires stamp { IsTrue (is_stamp edit.stamp) }
    requires cells { IsMortonRun (level + 3) edit.cells.now }
    requires kept { AreFilled store.old edit.stamp kept.old }
    ensures drawn { IsDrawn store.old store.new level (drawn_grid store.old level part edit.entry.stamp edit.entry.area (listed_in (side_at 8 level) edit.entry.cells.now)) result }
    ensures kept { AreFilled store.new edit.entry.stamp kept.new }
{
    if !edit.cells.is_empty() {
        let drawn = draw_anew(store, kept, level, part, edit)?;
        return Ok(drawn);
    }
    let stamp = edit.stamp;
    let area = edit.area;
    if area.is_empty() {
        return Ok(part);
    }
    if area.is_whole(side_of(level)) {
        // For the proof alone: the call tells that the laws of stores hold.
        store.store_laws();
        let blank = store.add_blank(stamp)?;
        return Ok(blank);
    }
    let key = AreaKey { level, part, area };
    if let Some(drawn) = filled(kept, store, stamp, &key) {
        return Ok(drawn);
    }
    let drawn = draw_anew(store, kept, level, part, edit)?;
    keep(kept, store, stamp, key, drawn)?;
    Ok(drawn)
}

/// The same, by its leaf or its quarters.
#[cycle(draw)]
fn draw_anew(
    store: &mut Store<PlaneLeaf>,
    kept: &mut IndexMap<AreaKey, Part, HashKey>,
    level: u32,
    part: Part,
    edit: SquareEdit<'_>,
) -> Result<Part, StoreFault>
    requires level { level ≤ 28 }
    requires part { IsAt store.old level part }
    requires stamp { IsTrue (is_stamp edit.stamp) }
    requires cells { IsMortonRun (level + 3) edit.cells.now }
    requires kept { AreFilled store.old edit.stamp kept.old }
    ensures drawn { IsDrawn store.old store.new level (drawn_grid store.old level part edit.entry.stamp edit.entry.area (listed_in (side_at 8 level) edit.entry.cells.now)) result }
    ensures kept { AreFilled store.new edit.entry.stamp kept.new }
{
    let SquareEdit { stamp, area, cells } = edit;
    if level == 0 {
        let drawn = draw_leaf(store, part, stamp, area, cells)?;
        return Ok(drawn);
    }
    let half = side_of(level - 1);
    let parts = store.quarters(level, part);
    let quarters = quartered(cells, level + 2);
    let nw = SquareEdit {
        stamp,
        area: area.of_part(0, 0, half),
        cells: quarters.nw,
    };
    let nw = draw(store, kept, level - 1, parts[0], nw)?;
    let ne = SquareEdit {
        stamp,
        area: area.of_part(half, 0, half),
        cells: quarters.ne,
    };
    let ne = draw(store, kept, level - 1, parts[1], ne)?;
    let sw = SquareEdit {
        stamp,
        area: area.of_part(0, half, half),
        cells: quarters.sw,
    };
    let sw = draw(store, kept, level - 1, parts[2], sw)?;
    let se = SquareEdit {
        stamp,
        area: area.of_part(half, half, half),
        cells: quarters.se,
    };
    let se = draw(store, kept, level - 1, parts[3], se)?;
    // For the proof alone, as above.
    store.store_laws();
    let drawn = store.add_four(level, [nw, ne, sw, se])?;
    Ok(drawn)
}

fn draw_leaf(
    store: &mut Store<PlaneLeaf>,
    part: Part,
    stamp: u64,
    area: Area,
    cells: &[ListedCell],
) -> Result<Part, StoreFault>
    requires part { IsAt store.old 0 part }
    requires stamp { IsTrue (is_stamp stamp) }
    ensures { IsDrawn store.old store.new 0 (drawn_grid store.old 0 part stamp area (listed_in 8 cells.now)) result }
{
    let leaf = overwritten_leaf(leaf_at(store, part), stamp, area, cells);
    // For the proof alone, as above.
    store.store_laws();
    let drawn = store.add_leaf(leaf)?;
    Ok(drawn)
}
