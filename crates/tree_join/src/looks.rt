//! What one look at two squares tells, by the stamps that the store keeps beside each.

ghost use Rattle.std.specs.Prelude.{◌≡◌, ℕ, IsTrue, IfSome, MatchOption, ◌↔◌};
ghost use Rattle.square_store.specs.Grid.{IsSpeltWithin};
ghost use Rattle.square_store.specs.Seen.{IsBlankAt};
ghost use Rattle.square_store.specs.Squares.{IsAt, grid_at, side_at};
ghost use Rattle.stamped_tree.specs.LeafKind.{plane_grid};
ghost use Rattle.tree_join.specs.Squares.{AreSameSquares, AreSquaresAtMost};

use stamped_tree::{Square, View};

/// The stamp of a blank.
pub(crate) fn blank_stamp(square: &Square<'_>) -> Option<u64>
    ensures { MatchOption result
        ((k : ℕ) → IsAt square.now.store k square.now.part → IsSpeltWithin (side_at 8 k) (grid_at plane_grid 8 square.now.store k square.now.part))
        (λ stamp. IsBlankAt plane_grid 8 square.now.store stamp square.now.part) }
{
    match square.view() {
        View::Blank(stamp) => Some(stamp),
        View::Leaf(_) => None,
        View::Four { .. } => None,
    }
}

/// Whether the stamps tell that each write of a square is at most the other's: all its stamps are below
/// all the other's, or it is a blank, whose state is the least, and none of the other's is below its own.
pub(crate) fn is_surely_at_most(square: &Square<'_>, other: &Square<'_>) -> bool
    ensures { IsTrue result → (k : ℕ) → IsAt square.now.store k square.now.part → IsAt other.now.store k other.now.part
        → AreSquaresAtMost square.now.store other.now.store k square.now.part other.now.part }
{
    let greatest = square.bounds().greatest;
    let least = other.bounds().least;
    greatest < least || (greatest == least && blank_stamp(square).is_some())
}

/// Whether the stamps tell that some write of a square is above the other's.
pub(crate) fn is_surely_above_somewhere(square: &Square<'_>, other: &Square<'_>) -> bool
    ensures { IsTrue result → (k : ℕ) → IsAt square.now.store k square.now.part → IsAt other.now.store k other.now.part
        → ¬ AreSquaresAtMost square.now.store other.now.store k square.now.part other.now.part }
{
    let bounds = square.bounds();
    let others = other.bounds();
    others.greatest < bounds.greatest || others.least < bounds.least
}

/// Whether two squares have the same writes, where the stamps or a blank tell.
pub(crate) fn same_at_a_look(square: &Square<'_>, other: &Square<'_>) -> Option<bool>
    ensures { IfSome result (λ same. (k : ℕ) → IsAt square.now.store k square.now.part → IsAt other.now.store k other.now.part
        → (IsTrue same ↔ AreSameSquares square.now.store other.now.store k square.now.part other.now.part)) }
{
    if square.bounds() != other.bounds() {
        return Some(false);
    }
    let counterpart = blank_stamp(other);
    match blank_stamp(square) {
        Some(_) => Some(counterpart.is_some()),
        None => match counterpart {
            Some(_) => Some(false),
            None => None,
        },
    }
}
