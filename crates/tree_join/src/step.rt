//! Two squares of two planes: what the stamps tell of their join, and the join of leaves.

ghost use Rattle.std.specs.Prelude.{◌≡◌, Err, IfOk, IsTrue};
ghost use Rattle.square_store.specs.Grid.{AreSameWithin};
ghost use Rattle.square_store.specs.Pieces.{AddsPiecesOfGrid};
ghost use Rattle.square_store.specs.Squares.{IsAt, grid_at};
ghost use Rattle.stamped_tree.specs.Full.{IsFullStoreFor};
ghost use Rattle.stamped_tree.specs.LeafKind.{plane_grid};
ghost use Rattle.stamped_tree.specs.Plane.{HasGrown, grid_of_leaf};
ghost use Rattle.tree_join.specs.Squares.{AreSquaresAtMost, IsSquareJoin, join_grid};

use crate::add::add_leaf;
use crate::leaf::{leaf_writes, merged_leaf};
use crate::looks::is_surely_at_most;
use leaf_merge_lanes::Leaf;
use stamped_tree::{Part, Plane, StoreFault};

/// Whether the stamps tell that the other's square changes nothing: the first stays.
pub(crate) fn stays(plane: &Plane, other: &Plane, above: u32, here: Part, there: Part) -> bool
    requires here { IsAt plane.now.store above here }
    requires there { IsAt other.now.store above there }
    ensures { IsTrue result → AreSquaresAtMost other.now.store plane.now.store above there here }
{
    is_surely_at_most(&other.square(there), &plane.square(here))
}

/// Whether the stamps tell that the other's square wins everywhere.
pub(crate) fn loses(plane: &Plane, other: &Plane, above: u32, here: Part, there: Part) -> bool
    requires here { IsAt plane.now.store above here }
    requires there { IsAt other.now.store above there }
    ensures { IsTrue result → AreSquaresAtMost plane.now.store other.now.store above here there }
{
    is_surely_at_most(&plane.square(here), &other.square(there))
}

/// Adds the join of two squares of level 3; where that is the first of them, it is that square.
pub(crate) fn join_leaves(
    plane: &mut Plane,
    other: &Plane,
    here: Part,
    there: Part,
) -> Result<Part, StoreFault>
    requires here { IsAt plane.old.store 0 here }
    requires there { IsAt other.now.store 0 there }
    ensures joins { IfOk result (IsSquareJoin plane.new.store other.now.store 0 here there) }
    ensures grows { HasGrown plane.old plane.new }
    ensures pieces { AddsPiecesOfGrid plane_grid 8 plane.old.store plane.new.store 0 (join_grid plane.old.store other.now.store 0 here there) }
    ensures full { result ≡ Err StoreFault.StoreFull → IsFullStoreFor plane.new.store 0 (join_grid plane.old.store other.now.store 0 here there) }
{
    plane.plane_laws(other);
    other.plane_laws(plane);
    let leaf = merged_leaf(&plane.square(here), &other.square(there));
    if is_leaf(plane, here, &leaf) {
        return Ok(here);
    }
    let part = add_leaf(plane, leaf)?;
    Ok(part)
}

/// Whether a square of level 3 has the writes of a leaf.
fn is_leaf(plane: &Plane, here: Part, leaf: &Leaf) -> bool
    requires { IsAt plane.now.store 0 here }
    ensures { IsTrue result → AreSameWithin 8 (grid_at plane_grid 8 plane.now.store 0 here) (grid_of_leaf leaf.now) }
{
    *leaf_writes(&plane.square(here)).leaf() == *leaf
}
