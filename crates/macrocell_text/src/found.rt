//! Live cells that a walk has found.

ghost use Rattle.std.specs.Prelude.{◌≡◌, ◌≤◌, ◌<◌, ◌^◌, ◌+◌, pos, ◌-ℤ◌, if◌then◌else◌, Some, None};
ghost use Rattle.edit_stamps.specs.Plane.{is_coordinate};
ghost use Rattle.generation_engine.specs.Walk.{row_order};
ghost use Rattle.macrocell_text.specs.LiveCells.{lies_in_plane, placed};

use crate::area::Area;
use crate::listing_fault::ListingFault;
use pattern_cells::Cell;
use std::alloc::Global;

/// Live cells so far, of a root that has twice so many columns and rows.
#[derive(Drop)]
pub struct FoundCells {
    pub half: u64,
    pub cells: Vec<Cell>,
}

impl FoundCells {
    ghost use Rattle.std.specs.Prelude.{◌≡◌, ◌∷◌, [], ◌≤◌, ◌^◌, IfErr, OnOk};
    ghost use Rattle.std.specs.List.Sorted.{IsNonDecreasingBy, IsPermutation};
    ghost use Rattle.generation_engine.specs.Walk.{row_order};
    ghost use Rattle.macrocell_text.specs.Finding.{HasFound, IsRefusedAt};

    /// None.
    pub(crate) fn new(alloc: Global, half: u64) -> FoundCells
        ensures half { result.half ≡ half }
        ensures cells { result.cells.items ≡ [] }
    {
        FoundCells {
            half,
            cells: Vec::new(alloc),
        }
    }

    /// Puts a cell last.
    pub(crate) fn put(&mut self, area: Area, state: u8) -> Result<(), ListingFault>
        requires row { area.row ≤ 2 ^ 63 }
        ensures found { OnOk result (HasFound self.old self.new (record { column = area.column; row = area.row; state = state } ∷ [])) }
        ensures refused { IfErr result (IsRefusedAt self.old.half (record { column = area.column; row = area.row; state = state } ∷ [])) }
    {
        match cell_placed(self.half, area, state) {
            Some(cell) => match self.cells.push(cell) {
                Ok(()) => Ok(()),
                Err(_) => Err(ListingFault::Memory),
            },
            None => Err(ListingFault::OutOfPlane),
        }
    }

    /// The cells by row and then by column.
    pub(crate) fn into_sorted(self) -> Vec<Cell>
        ensures order { IsNonDecreasingBy row_order result.items }
        ensures cells { IsPermutation self.cells.items result.items }
    {
        let FoundCells { mut cells, .. } = self;
        cells.sort_unstable_by_key(|cell| order_of(*cell));
        cells
    }
}

/// A cell by its coordinates, if they have 32 bits.
fn cell_placed(half: u64, area: Area, state: u8) -> Option<Cell>
    requires row { area.row ≤ 2 ^ 63 }
    ensures { result ≡ (if lies_in_plane (placed half (record { column = area.column; row = area.row; state = state })) then Some (placed half (record { column = area.column; row = area.row; state = state })) else None) }
{
    let x = coordinate(half, area.column)?;
    let y = coordinate(half, area.row + 1)?;
    Some(cell_at(x, y, state))
}

fn cell_at(x: i32, y: i32, state: u8) -> Cell
    ensures { result ≡ record { x = x; y = y; state = state } }
{
    Cell { x, y, state }
}

/// How far behind half a side so many columns end, if that has 32 bits.
fn coordinate(half: u64, columns: u64) -> Option<i32>
    ensures { result ≡ (if is_coordinate (pos columns -ℤ pos half) then Some (pos columns -ℤ pos half) else None) }
{
    if columns >= half {
        let right = columns - half;
        if right <= 0x7fff_ffff {
            Some(right as i32)
        } else {
            None
        }
    } else {
        let left = half - columns;
        if left <= 0x8000_0000 {
            Some(-(left as i64) as i32)
        } else {
            None
        }
    }
}

/// The least coordinate of 32 bits.
const LEAST: i64 = -0x8000_0000;

/// The place of a cell in the order of rows.
fn order_of(cell: Cell) -> u64
    ensures { result ≡ row_order cell }
{
    (i64::from(cell.y) - LEAST) as u64 * 0x1_0000_0000 + (i64::from(cell.x) - LEAST) as u64
}
