//! The cells that tiles show, band by band: a band is all tiles that begin in one row.

ghost use Rattle.std.specs.Prelude.{◌≡◌, ℕ, ◌+◌, ◌<◌, ◌≤◌, IfOk, OnOk, IsTrue, Some, length, pos, slice_get};
ghost use Rattle.std.specs.List.{All};
ghost use Rattle.std.specs.List.Sorted.{IsPermutation};
ghost use Rattle.generations_rule.specs.Place.{Place};
ghost use Rattle.pattern_cells.specs.Cells.{place_of};
ghost use Rattle.tile_steps.specs.Tiles.{AllInside, IsInside, tile_of, tile_state};
ghost use Rattle.tile_cells.specs.Listing.{AreCornersOf, AreOf, IsListedTo, Lists, ListsAll, ListsBand, ListsBandRow, ListsRow, tile_cell};

use pattern_cells::Cell;
use std::alloc::{AllocError, Global};
use tile_steps::{Corner, Tile, Tiles};

/// Tiles of one band, by their places in a list of corners.
#[derive(Clone, Copy)]
struct Band {
    first: usize,
    past: usize,
}

/// The cells that tiles show.
pub(crate) fn cells_of<const N: usize>(
    alloc: Global,
    tiles: &Tiles<N>,
) -> Result<Vec<Cell>, AllocError>
    requires few { N ≤ 8 }
    requires inside { AllInside N tiles.now.map.entries }
    ensures { IfOk result (λ cells. ListsAll N tiles.now.map.entries cells.items) }
{
    let corners = corners_of(alloc, tiles)?;
    let mut cells = Vec::new(alloc);
    let mut first = 0;
    for index in 0..corners.len() {
        let band = Band {
            first,
            past: index + 1,
        };
        first = list_if_whole(&mut cells, tiles, &corners, band)?;
    }
    Ok(cells)
}

/// The corners of all tiles, by `y`, then `x`.
fn corners_of<const N: usize>(alloc: Global, tiles: &Tiles<N>) -> Result<Vec<Corner>, AllocError>
    requires { AllInside N tiles.now.map.entries }
    ensures { IfOk result (λ corners. AreCornersOf N tiles.now.map.entries corners.items) }
{
    let mut corners = Vec::with_capacity(alloc, tiles.len())?;
    for index in 0..tiles.len() {
        corners.push(tiles.corner(index))?;
    }
    Ok(sorted(corners))
}

fn sorted(mut corners: Vec<Corner>) -> Vec<Corner>
    ensures { IsPermutation corners.items result.items }
{
    corners.sort_unstable_by_key(|corner| order_of(*corner));
    corners
}

/// The place of a corner in the order of rows.
fn order_of(corner: Corner) -> u64 {
    (i64::from(corner.y) + 0x8000_0000) as u64 * 0x1_0000_0000
        + (i64::from(corner.x) + 0x8000_0000) as u64
}

/// Whether the tile at a corner is the last of its band; that at the last corner is.
fn is_last_of_band(corners: &[Corner], index: usize) -> bool
    requires { index < length corners.now }
    ensures { index + 1 ≡ length corners.now → IsTrue result }
{
    match corners.get(index + 1) {
        Some(next) => next.y != corners[index].y,
        None => true,
    }
}

/// Lists a band, if its last tile is the last one that begins in its row; and where the next one begins.
fn list_if_whole<const N: usize>(
    cells: &mut Vec<Cell>,
    tiles: &Tiles<N>,
    corners: &[Corner],
    band: Band,
) -> Result<usize, AllocError>
    requires few { N ≤ 8 }
    requires first { band.first < band.past }
    requires past { band.past ≤ length corners.now }
    requires inside { All (IsInside 128) corners.now }
    ensures { IfOk result (IsListedTo N tiles.now.map.entries corners.now band.first band.past cells.old.items cells.new.items) }
{
    if !is_last_of_band(corners, band.past - 1) {
        return Ok(band.first);
    }
    list_band(cells, tiles, corners, band)?;
    Ok(band.past)
}

fn list_band<const N: usize>(
    cells: &mut Vec<Cell>,
    tiles: &Tiles<N>,
    corners: &[Corner],
    band: Band,
) -> Result<(), AllocError>
    requires few { N ≤ 8 }
    requires past { band.past ≤ length corners.now }
    requires inside { All (IsInside 128) corners.now }
    ensures { OnOk result (ListsBand N tiles.now.map.entries corners.now band.first band.past 32 cells.old.items cells.new.items) }
{
    for row in 0..32u32 {
        list_band_row(cells, tiles, corners, band, row)?;
    }
    Ok(())
}

fn list_band_row<const N: usize>(
    cells: &mut Vec<Cell>,
    tiles: &Tiles<N>,
    corners: &[Corner],
    band: Band,
    row: u32,
) -> Result<(), AllocError>
    requires few { N ≤ 8 }
    requires past { band.past ≤ length corners.now }
    requires inside { All (IsInside 128) corners.now }
    requires row { row < 32 }
    ensures { OnOk result (ListsBandRow N tiles.now.map.entries corners.now band.first band.past row cells.old.items cells.new.items) }
{
    for index in band.first..band.past {
        let corner = corner_in(corners, index);
        list_row(cells, tiles, corner, row)?;
    }
    Ok(())
}

fn corner_in(corners: &[Corner], index: usize) -> Corner
    requires { index < length corners.now }
    ensures { slice_get corners.now index ≡ Some result }
{
    corners[index]
}

/// Lists a row of the tile at a corner.
fn list_row<const N: usize>(
    cells: &mut Vec<Cell>,
    tiles: &Tiles<N>,
    corner: Corner,
    row: u32,
) -> Result<(), AllocError>
    requires few { N ≤ 8 }
    requires corner { IsInside 128 corner }
    requires row { row < 32 }
    ensures { OnOk result (ListsRow N (tile_of N tiles.now.map.entries corner) corner row 32 cells.old.items cells.new.items) }
{
    let Some(tile) = tiles.tile(corner) else {
        return Ok(());
    };
    if tile.is_row_dead(row as usize) {
        return Ok(());
    }
    list_live_row(cells, tile, corner, row)?;
    Ok(())
}

fn list_live_row<const N: usize>(
    cells: &mut Vec<Cell>,
    tile: &Tile<N>,
    corner: Corner,
    row: u32,
) -> Result<(), AllocError>
    requires few { N ≤ 8 }
    requires corner { IsInside 128 corner }
    requires row { row < 32 }
    ensures { OnOk result (ListsRow N (Some tile.now) corner row 32 cells.old.items cells.new.items) }
{
    for column in 0..32u32 {
        let state = tile.state(column as usize, row as usize);
        push_live(cells, cell_at(corner, column, row, state))?;
    }
    Ok(())
}

/// The cell in a column and a row of a tile.
fn cell_at(corner: Corner, column: u32, row: u32, state: u8) -> Cell
    requires corner { IsInside 128 corner }
    requires column { column < 32 }
    requires row { row < 32 }
    ensures place { place_of result ≡ tile_cell corner column row }
    ensures state { result.state ≡ state }
{
    Cell {
        x: corner.x + column as i32,
        y: corner.y + row as i32,
        state,
    }
}

/// Puts a cell last, unless it is dead.
fn push_live(cells: &mut Vec<Cell>, cell: Cell) -> Result<(), AllocError>
    ensures { OnOk result ((f : Place → ℕ) → f (place_of cell) ≡ cell.state → AreOf f cells.old.items → Lists f (λ c. c ≡ place_of cell) cells.old.items cells.new.items) }
{
    if cell.state != 0 {
        cells.push(cell)?;
    }
    Ok(())
}
