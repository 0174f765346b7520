//! The quarters of a square.

ghost use Rattle.std.specs.Prelude.{◌≡◌, ◌<◌, ◌-◌, ℕ, None, slice_index_or};
ghost use Rattle.square_store.specs.Squares.{IsAt};
ghost use Rattle.tree_join.specs.Squares.{AreQuarters};

use stamped_tree::{Part, Square, View};

/// The parts of the quarters of a square so many levels above a leaf, NW, NE, SW, SE. A blank's are the
/// blank itself.
pub(crate) fn quarter_parts(above: u32, square: &Square<'_>) -> [Part; 4]
    requires above { 0 < above }
    requires stands { IsAt square.now.store above square.now.part }
    ensures { AreQuarters square.now.store above square.now.part result }
{
    match square.view() {
        View::Blank(_) => [square.part(); 4],
        View::Leaf(_) => unreachable!(),
        View::Four { nw, ne, sw, se } => [nw.part(), ne.part(), sw.part(), se.part()],
    }
}
