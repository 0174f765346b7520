//! Tiles with the cells of a list.

ghost use Rattle.std.specs.Prelude.{◌≡◌, ◌+◌, ◌<◌, ◌≤◌, ◌^◌, IfErr, IfOk, Some, length, slice_get, true};
ghost use Rattle.std.specs.List.{IsDistinct};
ghost use Rattle.std.specs.Map.{keys_of};
ghost use Rattle.pattern_cells.specs.Cells.{are_states_below};
ghost use Rattle.tile_steps.specs.Tiles.{AllInside, Shows, is_corner};
ghost use Rattle.tile_cells.specs.Causes.{AreTilesOf, IsNotFilled};
ghost use Rattle.tile_cells.specs.Listing.{states_in};

use keyed_hash::HashKey;
use pattern_cells::Cell;
use std::alloc::Global;
use tile_steps::{Filling, TileFault, Tiles};

/// Tiles that show the cells of a list, and nothing else. `Far` is answered where a cell lies within 128
/// of the least or the greatest coordinate.
pub(crate) fn tiles_of<const N: usize>(
    alloc: Global,
    key: HashKey,
    cells: &[Cell],
    states: u16,
) -> Result<Tiles<N>, TileFault>
    requires few { N ≤ 8 }
    requires enough { states ≤ 2 ^ N }
    requires below { are_states_below states cells.now ≡ true }
    ensures shows { IfOk result (λ tiles. Shows N 0 tiles.map.entries (states_in cells.now)) }
    ensures inside { IfOk result (λ tiles. AllInside N tiles.map.entries) }
    ensures of { IfOk result (λ tiles. AreTilesOf N cells.now tiles.map.entries) }
    ensures once { IfOk result (λ tiles. IsDistinct is_corner (keys_of tiles.map.entries)) }
    ensures cause { IfErr result (λ fault. IsNotFilled cells.now fault) }
{
    let mut filling = Filling::new(alloc, key);
    // From the last to the first, since the first of two at one place is the one that is listed.
    for done in 0..cells.len() {
        let cell = cell_in(cells, cells.len() - 1 - done);
        filling.put(cell.x, cell.y, cell.state)?;
    }
    let tiles = filling.into_tiles()?;
    if !tiles.are_inside() {
        return Err(TileFault::Far);
    }
    Ok(tiles)
}

fn cell_in(cells: &[Cell], index: usize) -> Cell
    requires { index < length cells.now }
    ensures { slice_get cells.now index ≡ Some result }
{
    cells[index]
}
