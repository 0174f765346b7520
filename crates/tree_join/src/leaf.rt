//! Squares of level 0 above a leaf: 8 by 8 writes, as they are stored or as a blank has them.

ghost use Rattle.std.specs.Prelude.{◌≡◌, ◌↔◌, IsTrue};
ghost use Rattle.square_store.specs.Grid.{AreSameWithin};
ghost use Rattle.square_store.specs.Squares.{IsAt, grid_at};
ghost use Rattle.stamped_tree.specs.LeafKind.{plane_grid};
ghost use Rattle.stamped_tree.specs.Plane.{grid_of_leaf};
ghost use Rattle.leaf_merge_lanes.specs.Leaf.{IsLeaf};
ghost use Rattle.tree_join.specs.Leaves.{writes_listed};
ghost use Rattle.tree_join.specs.Squares.{AreSameSquares, AreSquaresAtMost, joined_grid};

use leaf_merge_lanes::Leaf;
use stamped_tree::{Square, View};

/// The 64 writes of a square of level 3.
#[derive(Drop)]
pub(crate) enum LeafWrites<'a> {
    /// Those of a leaf, where it is stored.
    Stored(&'a Leaf),
    /// A blank's.
    Blank(Leaf),
}

impl<'a> LeafWrites<'a> {
    pub(crate) fn leaf(&self) -> &Leaf
        ensures { result.now ≡ writes_listed self.now }
    {
        match self {
            LeafWrites::Stored(leaf) => leaf,
            LeafWrites::Blank(leaf) => leaf,
        }
    }
}

pub(crate) fn leaf_writes<'a>(square: &Square<'a>) -> LeafWrites<'a>
    requires { IsAt square.now.store 0 square.now.part }
    ensures leaf { IsLeaf (writes_listed result) }
    ensures writes { AreSameWithin 8 (grid_of_leaf (writes_listed result)) (grid_at plane_grid 8 square.now.store 0 square.now.part) }
{
    match square.view() {
        View::Blank(stamp) => LeafWrites::Blank(Leaf::blank(stamp)),
        View::Leaf(leaf) => LeafWrites::Stored(leaf),
        View::Four { .. } => unreachable!(),
    }
}

/// The greater write at each of the 64 places.
pub(crate) fn merged_leaf(square: &Square<'_>, other: &Square<'_>) -> Leaf
    requires square { IsAt square.now.store 0 square.now.part }
    requires other { IsAt other.now.store 0 other.now.part }
    ensures { AreSameWithin 8 (grid_of_leaf result) (joined_grid (grid_at plane_grid 8 square.now.store 0 square.now.part) (grid_at plane_grid 8 other.now.store 0 other.now.part)) }
{
    let writes = leaf_writes(square);
    let others = leaf_writes(other);
    Leaf::merge(writes.leaf(), others.leaf())
}

pub(crate) fn is_leaf_at_most(square: &Square<'_>, other: &Square<'_>) -> bool
    requires square { IsAt square.now.store 0 square.now.part }
    requires other { IsAt other.now.store 0 other.now.part }
    ensures { IsTrue result ↔ AreSquaresAtMost square.now.store other.now.store 0 square.now.part other.now.part }
{
    let writes = leaf_writes(square);
    let others = leaf_writes(other);
    Leaf::at_most(writes.leaf(), others.leaf())
}

pub(crate) fn are_same_leaves(square: &Square<'_>, other: &Square<'_>) -> bool
    requires square { IsAt square.now.store 0 square.now.part }
    requires other { IsAt other.now.store 0 other.now.part }
    ensures { IsTrue result ↔ AreSameSquares square.now.store other.now.store 0 square.now.part other.now.part }
{
    let writes = leaf_writes(square);
    let others = leaf_writes(other);
    *writes.leaf() == *others.leaf()
}
