//! The least columns and rows that have all cells of a universe.

ghost use Rattle.std.specs.Prelude.{◌≤◌, ◌+◌};
ghost use Rattle.square_store.specs.Squares.{IsAt};
ghost use Rattle.generation_engine.specs.EngineLeaf.{leaf_grid};
ghost use Rattle.generation_engine.specs.Extent.{IsRegionWhere, IsWidened, is_live_on};
ghost use Rattle.generation_engine.specs.Placed.{IsPlaced, is_live_in};
ghost use Rattle.generation_engine.specs.Walk.{middle_grid};

use crate::leaf_kind::EngineLeaf;
use crate::placed::{PlacedSquare, middle_squares, side_by_side};
use crate::region::{Region, widened};
use square_store::{Part, Square, Store};
use stamped_tree::Corner;

/// The least region that has all cells in the middle of the root.
pub(crate) fn extent_of(store: &Store<EngineLeaf>, root: Part) -> Option<Region>
    requires { IsAt store.now 30 root }
    ensures { IsRegionWhere (is_live_on 4294967296 (middle_grid store.now root) 0 0) result }
{
    let squares = middle_squares(store, root);
    let found = widen(store, &squares.nw, None);
    let found = widen(store, &squares.ne, found);
    let found = widen(store, &squares.sw, found);
    widen(store, &squares.se, found)
}

/// The least region that has what was found and the cells of a square. A square that lies in what was
/// found is not gone into, so a full square costs by its outline.
fn widen(store: &Store<EngineLeaf>, square: &PlacedSquare, found: Option<Region>) -> Option<Region>
    requires { IsPlaced store.now square.now }
    ensures { IsWidened (is_live_in store.now square.now) found result }
{
    let own = Region::of_square(square);
    if let Some(region) = found
        && region.has_all(own)
    {
        return found;
    }
    match store.square(square.part) {
        Square::Blank(_) => found,
        Square::Leaf(leaf) => widen_by_leaf(leaf, square.corner, found),
        Square::Four { parts, .. } => {
            let quarters = side_by_side(square.level - 1, parts, square.corner);
            let found = widen(store, &quarters.nw, found);
            let found = widen(store, &quarters.ne, found);
            let found = widen(store, &quarters.sw, found);
            widen(store, &quarters.se, found)
        }
    }
}

fn widen_by_leaf(leaf: &EngineLeaf, corner: Corner, found: Option<Region>) -> Option<Region>
    requires left { corner.left + 8 ≤ 4294967296 }
    requires top { corner.top + 8 ≤ 4294967296 }
    ensures { IsWidened (is_live_on 8 (leaf_grid leaf.now) corner.left corner.top) found result }
{
    let mut found = found;
    for place in 0..64u32 {
        if leaf.leaf.get(place as usize) != 0 {
            let region = widened(found, corner.left + place % 8, corner.top + place / 8);
            found = Some(region);
        }
    }
    found
}
