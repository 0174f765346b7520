//! The write in a column and a row of a square.

ghost use Rattle.std.specs.Prelude.{◌≡◌, ◌<◌, ◌-◌, ◌+◌, ℕ, slice_index_or};
ghost use Rattle.edit_stamps.specs.Plane.{is_coordinate_in_plane};
ghost use Rattle.std.specs.Bool.{then_some};
ghost use Rattle.square_store.specs.Grid.{Grid, quartered};
ghost use Rattle.square_store.specs.Squares.{IsAt, grid_at, side_at};
ghost use Rattle.stamped_tree.specs.LeafKind.{plane_grid};
ghost use Rattle.stamped_tree.specs.Plane.{from_edge};

use crate::leaf_kind::PlaneLeaf;
use edit_stamps::Write;
use square_store::{Part, Square, Store};

/// How far the edges of the plane are from the middle.
const EDGE: i64 = 0x4000_0000;

/// A column or a row of a plane, from its upper left corner; `None` outside the plane.
pub(crate) fn from_corner(coordinate: i32) -> Option<u32>
    ensures { result ≡ then_some (is_coordinate_in_plane coordinate) (from_edge coordinate) }
{
    let coordinate = i64::from(coordinate);
    if coordinate < -EDGE || EDGE <= coordinate {
        return None;
    }
    Some((coordinate + EDGE) as u32)
}

/// A column and a row of the square at a part.
#[derive(Clone, Copy)]
struct Spot {
    part: Part,
    column: u32,
    row: u32,
}

/// The write in a column and a row of a square so many levels above a leaf, of so many columns.
pub(crate) fn write_in(
    store: &Store<PlaneLeaf>,
    level: u32,
    side: u32,
    part: Part,
    column: u32,
    row: u32,
) -> Write
    requires part { IsAt store.now level part }
    requires side { side ≡ side_at 8 level }
    requires column { column < side }
    requires row { row < side }
    ensures { result ≡ grid_at plane_grid 8 store.now level part column row }
{
    match store.square(part) {
        Square::Blank(stamp) => Write { stamp, state: 0 },
        Square::Leaf(leaf) => leaf.leaf.get((8 * row + column) as usize),
        Square::Four { parts, .. } => {
            let half = half_of(level, side);
            let spot = quarter_of(&parts, half, column, row);
            write_in(store, level - 1, half, spot.part, spot.column, spot.row)
        }
    }
}

/// How many columns a quarter has.
fn half_of(level: u32, side: u32) -> u32
    requires level { 0 < level }
    requires side { side ≡ side_at 8 level }
    ensures { result ≡ side_at 8 (level - 1) }
{
    side / 2
}

/// Where a column and a row are in one of four quarters, NW, NE, SW and SE.
fn quarter_of(parts: &[Part; 4], half: u32, column: u32, row: u32) -> Spot
    requires column { column < half + half }
    requires row { row < half + half }
    ensures column { result.column < half }
    ensures row { result.row < half }
    ensures part { (i : ℕ) × ((i < 4) × (result.part ≡ slice_index_or parts.now i 0)) }
    ensures write { (writes : ℕ → Grid) → writes result.part result.column result.row ≡ quartered half (writes (slice_index_or parts.now 0 0)) (writes (slice_index_or parts.now 1 0)) (writes (slice_index_or parts.now 2 0)) (writes (slice_index_or parts.now 3 0)) column row }
{
    match (row < half, column < half) {
        (true, true) => Spot {
            part: parts[0],
            column,
            row,
        },
        (true, false) => Spot {
            part: parts[1],
            column: column - half,
            row,
        },
        (false, true) => Spot {
            part: parts[2],
            column,
            row: row - half,
        },
        (false, false) => Spot {
            part: parts[3],
            column: column - half,
            row: row - half,
        },
    }
}
