//! Whether one plane is at most another.

ghost use Rattle.std.specs.Prelude.{◌≡◌, ◌↔◌, IsTrue};
ghost use Rattle.stamped_writes.specs.Write.{IsBelow};
ghost use Rattle.square_store.specs.Squares.{IsAt};
ghost use Rattle.stamped_tree.specs.Plane.{map_of};
ghost use Rattle.tree_join.specs.Squares.{AreSquaresAtMost};

use crate::leaf::is_leaf_at_most;
use crate::looks::{is_surely_above_somewhere, is_surely_at_most};
use crate::quarters::quarter_parts;
use stamped_tree::{Part, Plane};

/// How many levels the root is above a leaf.
pub(crate) const ROOT_ABOVE_LEAF: u32 = 28;

/// Whether each write of a plane is at most the other's: then joining it changes nothing. It takes no
/// memory, and time in proportion to the pairs of squares that are gone through, each in each place where
/// it stands.
pub fn at_most(plane: &Plane, other: &Plane) -> bool
    ensures { IsTrue result ↔ IsBelow (map_of plane.now) (map_of other.now) }
{
    let root = plane.root().part();
    let others_root = other.root().part();
    is_at_most(plane, other, ROOT_ABOVE_LEAF, root, others_root)
}

/// The same of a square and one of the other plane's, so many levels above a leaf.
fn is_at_most(plane: &Plane, other: &Plane, above: u32, part: Part, others: Part) -> bool
    requires part { IsAt plane.now.store above part }
    requires others { IsAt other.now.store above others }
    ensures { IsTrue result ↔ AreSquaresAtMost plane.now.store other.now.store above part others }
{
    let square = plane.square(part);
    let counterpart = other.square(others);
    if is_surely_at_most(&square, &counterpart) {
        return true;
    }
    if is_surely_above_somewhere(&square, &counterpart) {
        return false;
    }
    if above == 0 {
        return is_leaf_at_most(&square, &counterpart);
    }
    let a = quarter_parts(above, &square);
    let b = quarter_parts(above, &counterpart);
    if !is_at_most(plane, other, above - 1, a[0], b[0]) {
        return false;
    }
    if !is_at_most(plane, other, above - 1, a[1], b[1]) {
        return false;
    }
    if !is_at_most(plane, other, above - 1, a[2], b[2]) {
        return false;
    }
    is_at_most(plane, other, above - 1, a[3], b[3])
}
