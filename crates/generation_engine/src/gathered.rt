//! Cells that a walk has come by.

ghost use Rattle.std.specs.Prelude.{◌≡◌, ◌++◌, ◌∷◌, [], IfOk, OnOk, map};
ghost use Rattle.std.specs.List.Sorted.{IsNonDecreasingBy, IsPermutation};
ghost use Rattle.generation_engine.specs.Walk.{cell_of_middle, middle_order, row_order, spot_of};

use pattern_cells::Cell;
use stamped_tree::ListedCell;
use std::alloc::{AllocError, Global};
use std::marker::Model;

/// The least coordinate of the middle.
pub(crate) const LEAST: i64 = -0x8000_0000;

/// Cells of the middle of a universe, by column and row. Each is kept as it will be listed, so that all
/// are held once.
#[derive(Drop)]
pub(crate) struct GatheredCells {
    cells: Vec<Cell>,
}

impl Model for GatheredCells {
    ghost use Rattle.std.specs.Prelude.{List, map};
    ghost use Rattle.stamped_tree.specs.declared.cells.ListedCell.{ListedCell};
    ghost use Rattle.generation_engine.specs.Walk.{AreInMiddle, spot_of};

    ghost Value = { List ListedCell };

    ghost view = { λ g. map spot_of g.cells.items };

    ghost invariant = { λ g. AreInMiddle g.cells.items };
}

impl GatheredCells {
    /// No cell, with memory for so many.
    pub(crate) fn with_capacity(alloc: Global, count: u128) -> Result<GatheredCells, AllocError>
        ensures { IfOk result (λ gathered. gathered ≡ []) }
    {
        let count = usize::try_from(count).unwrap_or(usize::MAX);
        let cells = Vec::with_capacity(alloc, count)?;
        Ok(GatheredCells { cells })
    }

    /// Puts a cell last.
    pub(crate) fn push(&mut self, cell: ListedCell) -> Result<(), AllocError>
        ensures { OnOk result (self.new ≡ self.old ++ cell ∷ []) }
    {
        self.cells.push(placed_cell(cell))?;
        Ok(())
    }

    /// The cells by row and then by column.
    pub(crate) fn into_sorted(self) -> Vec<Cell>
        ensures sorted { IsNonDecreasingBy middle_order (map spot_of result.items) }
        ensures cells { IsPermutation self (map spot_of result.items) }
        ensures placed { map cell_of_middle (map spot_of result.items) ≡ result.items }
    {
        sorted_by_rows(self.cells)
    }
}

fn sorted_by_rows(mut cells: Vec<Cell>) -> Vec<Cell>
    ensures sorted { IsNonDecreasingBy row_order result.items }
    ensures cells { IsPermutation cells.items result.items }
{
    cells.sort_unstable_by_key(|cell| order_of(*cell));
    cells
}

/// The place of a cell's column and row in the order of rows.
fn order_of(cell: Cell) -> u64
    ensures { result ≡ row_order cell }
{
    (i64::from(cell.y) - LEAST) as u64 * 0x1_0000_0000 + (i64::from(cell.x) - LEAST) as u64
}

/// A cell by its coordinates.
fn placed_cell(cell: ListedCell) -> Cell
    ensures { result ≡ cell_of_middle cell }
{
    Cell {
        x: (i64::from(cell.column) + LEAST) as i32,
        y: (i64::from(cell.row) + LEAST) as i32,
        state: cell.state,
    }
}
