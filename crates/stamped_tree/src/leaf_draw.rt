//! Leaves over which an edit is written.

ghost use Rattle.std.specs.Prelude.{◌≡◌, ◌<◌, ◌≤◌, ◌%◌, ◌/◌, ◌∷◌, [], ℕ, IsTrue, if◌then◌else◌};
ghost use Rattle.leaf_merge_lanes.specs.Leaf.{IsLeaf, write_of, write_on_leaf};
ghost use Rattle.square_store.specs.Grid.{AreSameWithin};
ghost use Rattle.square_store.specs.Squares.{IsAt, grid_at};
ghost use Rattle.edit_stamps.specs.Stamp.{is_stamp};
ghost use Rattle.stamped_tree.specs.Area.{is_in_area};
ghost use Rattle.stamped_tree.specs.Drawing.{edit_grid, state_listed};
ghost use Rattle.stamped_tree.specs.LeafKind.{plane_grid};
ghost use Rattle.stamped_tree.specs.Morton.{in_square, listed_in};
ghost use Rattle.stamped_tree.specs.Overwriting.{listed_over, overwritten_grid};
ghost use Rattle.stamped_tree.specs.Plane.{grid_of_leaf};

use crate::area::Area;
use crate::cells::ListedCell;
use crate::leaf_kind::PlaneLeaf;
use edit_stamps::Write;
use leaf_merge_lanes::Leaf;
use square_store::{Part, Square, Store};

/// The 64 writes of a square of level 0; a blank's are spelt out.
pub fn leaf_at(store: &Store<PlaneLeaf>, part: Part) -> Leaf
    requires { IsAt store.now 0 part }
    ensures leaf { IsLeaf result }
    ensures writes { AreSameWithin 8 (grid_of_leaf result) (grid_at plane_grid 8 store.now 0 part) }
{
    match store.square(part) {
        Square::Blank(stamp) => Leaf::blank(stamp),
        Square::Leaf(leaf) => {
            let _first = leaf.leaf.get(0);
            leaf.leaf
        }
        Square::Four { .. } => unreachable!(),
    }
}

/// A leaf with the listed states at the listed cells and state 0 elsewhere in the area, both written
/// with a stamp.
pub fn overwritten_leaf(leaf: Leaf, stamp: u64, area: Area, cells: &[ListedCell]) -> PlaneLeaf
    requires leaf { IsLeaf leaf }
    requires stamp { IsTrue (is_stamp stamp) }
    ensures { AreSameWithin 8 (plane_grid result) (overwritten_grid (grid_of_leaf leaf) (edit_grid stamp area (listed_in 8 cells.now))) }
{
    let mut leaf = leaf;
    if !area.is_empty() {
        clear(&mut leaf, stamp, area);
    }
    put_cells(&mut leaf, stamp, cells);
    PlaneLeaf { leaf }
}

/// Writes state 0 in an area.
fn clear(leaf: &mut Leaf, stamp: u64, area: Area)
    requires { IsLeaf leaf.old }
    ensures leaf { IsLeaf leaf.new }
    ensures writes { (i : ℕ) → i < 64 → write_on_leaf leaf.new i ≡ (if is_in_area area (i % 8) (i / 8) then write_of stamp 0 else write_on_leaf leaf.old i) }
{
    for place in 0..64usize {
        if area.has(place as u32 % 8, place as u32 / 8) {
            leaf.put(place, Write { stamp, state: 0 });
        }
    }
}

/// Writes the listed states, from the last to the first: of two at one place the first counts.
fn put_cells(leaf: &mut Leaf, stamp: u64, cells: &[ListedCell])
    requires { IsLeaf leaf.old }
    ensures leaf { IsLeaf leaf.new }
    ensures writes { (i : ℕ) → i < 64 → write_on_leaf leaf.new i ≡ listed_over (write_on_leaf leaf.old i) stamp (state_listed (listed_in 8 cells.now) (i % 8) (i / 8)) }
{
    for index in (0..cells.len()).rev() {
        put_cell(leaf, stamp, cells[index]);
    }
}

fn put_cell(leaf: &mut Leaf, stamp: u64, cell: ListedCell)
    requires { IsLeaf leaf.old }
    ensures leaf { IsLeaf leaf.new }
    ensures writes { (i : ℕ) → i < 64 → write_on_leaf leaf.new i ≡ listed_over (write_on_leaf leaf.old i) stamp (state_listed (in_square 8 cell ∷ []) (i % 8) (i / 8)) }
{
    leaf.put(
        (8 * (cell.row % 8) + cell.column % 8) as usize,
        Write {
            stamp,
            state: cell.state,
        },
    );
}
