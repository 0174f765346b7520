//! The cells of a universe that are not dead.

ghost use Rattle.std.specs.Prelude.{◌≡◌, ◌≤◌, ◌+◌, map, length, IfOk, OnOk};
ghost use Rattle.std.specs.List.Sorted.{IsNonDecreasingBy};
ghost use Rattle.square_store.specs.Squares.{IsAt, grid_at, side_at};
ghost use Rattle.bitplane_kernel.specs.Population.{population};
ghost use Rattle.stamped_tree.specs.Walk.{AreGathered, IsNonzeroCell};
ghost use Rattle.generation_engine.specs.EngineLeaf.{leaf_grid};
ghost use Rattle.generation_engine.specs.Walk.{GathersOne, GathersSquare, cell_of_middle, middle_grid, middle_order, spot_of};

use crate::counts::square_population;
use crate::gathered::GatheredCells;
use crate::leaf_kind::EngineLeaf;
use crate::quarters::middle;
use pattern_cells::Cell;
use square_store::{Part, Square, Store};
use stamped_tree::{Corner, ListedCell};
use std::alloc::{AllocError, Global};

/// How many columns a quarter of the middle has, and rows.
const QUARTER: u32 = 0x8000_0000;

/// The cells in the middle of the root, of 2^32 columns and rows, by row and then by column; memory is
/// taken once for all of them.
pub(crate) fn middle_cells(
    alloc: Global,
    store: &Store<EngineLeaf>,
    root: Part,
) -> Result<Vec<Cell>, AllocError>
    requires { IsAt store.now 30 root }
    ensures sorted { IfOk result (λ cells. IsNonDecreasingBy middle_order (map spot_of cells.items)) }
    ensures cells { IfOk result (λ cells. AreGathered (IsNonzeroCell 4294967296 (middle_grid store.now root) 0 0) (map spot_of cells.items)) }
    ensures count { IfOk result (λ cells. length (map spot_of cells.items) ≡ population 4294967296 (λ u v. (middle_grid store.now root u v).state)) }
    ensures placed { IfOk result (λ cells. map cell_of_middle (map spot_of cells.items) ≡ cells.items) }
{
    let parts = middle(store, 30, root);
    let count = square_population(alloc, store, 30, root);
    let mut found = GatheredCells::with_capacity(alloc, count)?;
    let nw = Corner { left: 0, top: 0 };
    let ne = Corner {
        left: QUARTER,
        top: 0,
    };
    let sw = Corner {
        left: 0,
        top: QUARTER,
    };
    let se = Corner {
        left: QUARTER,
        top: QUARTER,
    };
    gather(store, 28, parts[0], nw, &mut found)?;
    gather(store, 28, parts[1], ne, &mut found)?;
    gather(store, 28, parts[2], sw, &mut found)?;
    gather(store, 28, parts[3], se, &mut found)?;
    Ok(found.into_sorted())
}

/// Puts the cells of a square last.
pub(crate) fn gather(
    store: &Store<EngineLeaf>,
    level: u32,
    part: Part,
    corner: Corner,
    found: &mut GatheredCells,
) -> Result<(), AllocError>
    requires level { level ≤ 28 }
    requires stands { IsAt store.now level part }
    requires left { corner.left + side_at 8 level ≤ 4294967296 }
    requires top { corner.top + side_at 8 level ≤ 4294967296 }
    ensures { OnOk result (GathersSquare (side_at 8 level) (grid_at leaf_grid 8 store.now level part) corner.left corner.top found.old found.new) }
{
    match store.square(part) {
        Square::Blank(_) => Ok(()),
        Square::Leaf(leaf) => {
            gather_leaf(leaf, corner, found)?;
            Ok(())
        }
        Square::Four { parts, .. } => {
            let half = side_of(level - 1);
            let Corner { left, top } = corner;
            let east = left + half;
            let south = top + half;
            let ne = Corner { left: east, top };
            let sw = Corner { left, top: south };
            let se = Corner {
                left: east,
                top: south,
            };
            gather(store, level - 1, parts[0], corner, found)?;
            gather(store, level - 1, parts[1], ne, found)?;
            gather(store, level - 1, parts[2], sw, found)?;
            gather(store, level - 1, parts[3], se, found)?;
            Ok(())
        }
    }
}

fn gather_leaf(
    leaf: &EngineLeaf,
    corner: Corner,
    found: &mut GatheredCells,
) -> Result<(), AllocError>
    requires left { corner.left + 8 ≤ 4294967296 }
    requires top { corner.top + 8 ≤ 4294967296 }
    ensures { OnOk result (GathersSquare 8 (leaf_grid leaf.now) corner.left corner.top found.old found.new) }
{
    for place in 0..64u32 {
        let cell = ListedCell {
            column: corner.left + place % 8,
            row: corner.top + place / 8,
            state: leaf.leaf.get(place as usize),
        };
        push_live(cell, found)?;
    }
    Ok(())
}

/// Puts a cell last, unless it is dead.
pub(crate) fn push_live(cell: ListedCell, found: &mut GatheredCells) -> Result<(), AllocError>
    ensures { OnOk result (GathersOne cell found.old found.new) }
{
    if cell.state != 0 {
        found.push(cell)?;
    }
    Ok(())
}

/// How many columns a square of a level has.
pub(crate) fn side_of(level: u32) -> u32
    requires { level ≤ 28 }
    ensures { result ≡ side_at 8 level }
{
    8 << level
}
