//! Squares of a store, placed in the middle of a universe.

ghost use Rattle.std.specs.Prelude.{◌≡◌, ◌≤◌, ◌<◌, ◌+◌, ◌/◌, ◌%◌};
ghost use Rattle.square_store.specs.Squares.{IsAt, side_at};
ghost use Rattle.generation_engine.specs.EngineLeaf.{leaf_grid};
ghost use Rattle.generation_engine.specs.Placed.{ArePlacedParts, AreSideBySide};
ghost use Rattle.generation_engine.specs.Region.{seen_grid};
ghost use Rattle.generation_engine.specs.Walk.{middle_grid};

use crate::leaf_kind::EngineLeaf;
use crate::quarters::middle;
use crate::region::Region;
use crate::walk::side_of;
use square_store::{Part, Store};
use stamped_tree::{Corner, ListedCell};

/// A square of a store, and where its corner stands in the middle of the universe.
#[derive(Clone, Copy)]
pub(crate) struct PlacedSquare {
    pub level: u32,
    pub part: Part,
    pub corner: Corner,
}

/// Four squares of one level, side by side.
#[derive(Clone, Copy)]
pub(crate) struct PlacedQuarters {
    pub nw: PlacedSquare,
    pub ne: PlacedSquare,
    pub sw: PlacedSquare,
    pub se: PlacedSquare,
}

/// The four squares that together are the middle of a root.
pub(crate) fn middle_squares(store: &Store<EngineLeaf>, root: Part) -> PlacedQuarters
    requires { IsAt store.now 30 root }
    ensures { AreSideBySide store.now 28 (middle_grid store.now root) 0 0 result }
{
    let parts = middle(store, 30, root);
    side_by_side(28, parts, Corner { left: 0, top: 0 })
}

/// Four parts of a level, NW, NE, SW, SE, side by side from a corner on.
pub(crate) fn side_by_side(level: u32, parts: [Part; 4], corner: Corner) -> PlacedQuarters
    requires level { level ≤ 28 }
    requires left { corner.left + side_at 8 level < 4294967296 }
    requires top { corner.top + side_at 8 level < 4294967296 }
    ensures { ArePlacedParts level parts corner.left corner.top result }
{
    let side = side_of(level);
    let Corner { left, top } = corner;
    let east = left + side;
    let south = top + side;
    PlacedQuarters {
        nw: PlacedSquare {
            level,
            part: parts[0],
            corner,
        },
        ne: PlacedSquare {
            level,
            part: parts[1],
            corner: Corner { left: east, top },
        },
        sw: PlacedSquare {
            level,
            part: parts[2],
            corner: Corner { left, top: south },
        },
        se: PlacedSquare {
            level,
            part: parts[3],
            corner: Corner {
                left: east,
                top: south,
            },
        },
    }
}

/// The cell at a place of a leaf, row by row; dead where a region does not have it.
pub(crate) fn seen_cell(leaf: &EngineLeaf, corner: Corner, region: Region, place: u32) -> ListedCell
    requires place { place < 64 }
    requires left { corner.left + 8 ≤ 4294967296 }
    requires top { corner.top + 8 ≤ 4294967296 }
    ensures column { result.column ≡ corner.left + place % 8 }
    ensures row { result.row ≡ corner.top + place / 8 }
    ensures state { result.state ≡ (seen_grid region corner.left corner.top (leaf_grid leaf.now) (place % 8) (place / 8)).state }
{
    let column = corner.left + place % 8;
    let row = corner.top + place / 8;
    let state = if region.has(column, row) {
        leaf.leaf.get(place as usize)
    } else {
        0
    };
    ListedCell { column, row, state }
}
