//! Squares that were gone through: what came of them.

ghost use Rattle.std.specs.Prelude.{◌≡◌, IfSome, IfErr, IsTrue, OnErr};
ghost use Rattle.stamped_tree.specs.Copy.{IsCopy};
ghost use Rattle.tree_join.specs.Squares.{AreSameSquares, IsSquareJoin};
ghost use Rattle.tree_join.specs.Remembered.{RemembersCopies, RemembersJoins, RemembersSame};

use indexmap::{IndexMap, IndexSet};
use keyed_hash::HashKey;
use stamped_tree::{Part, Plane, StoreFault};
use std::alloc::AllocError;

/// A square of one plane and a square of another, both so many levels above a leaf.
#[derive(Clone, Copy, PartialEq, Eq, Hash)]
pub(crate) struct PartPair {
    pub above: u32,
    pub here: Part,
    pub there: Part,
}

/// The join of two squares that was made before.
pub(crate) fn join_made(
    joins: &IndexMap<PartPair, Part, HashKey>,
    plane: &Plane,
    other: &Plane,
    pair: &PartPair,
) -> Option<Part>
    requires { RemembersJoins plane.now.store other.now.store joins.now }
    ensures { IfSome result (IsSquareJoin plane.now.store other.now.store pair.now.above pair.now.here pair.now.there) }
{
    joins.get(pair).copied()
}

/// Keeps the join of two squares.
pub(crate) fn keep_join(
    joins: &mut IndexMap<PartPair, Part, HashKey>,
    plane: &Plane,
    other: &Plane,
    pair: PartPair,
    part: Part,
) -> Result<(), StoreFault>
    requires joins { RemembersJoins plane.now.store other.now.store joins.old }
    requires joined { IsSquareJoin plane.now.store other.now.store pair.above pair.here pair.there part }
    ensures joins { RemembersJoins plane.now.store other.now.store joins.new }
    ensures err { IfErr result (λ fault. fault ≡ StoreFault.Memory) }
{
    match joins.insert(pair, part) {
        Ok(_) => Ok(()),
        Err(_) => Err(StoreFault::Memory),
    }
}

/// The copy of the other plane's square that was made before.
pub(crate) fn copy_made(
    copies: &IndexMap<Part, Part>,
    plane: &Plane,
    other: &Plane,
    there: Part,
) -> Option<Part>
    requires { RemembersCopies plane.now.store other.now.store copies.now }
    ensures { IfSome result (IsCopy other.now.store plane.now.store there) }
{
    copies.get(&there).copied()
}

/// Keeps the copy of the other plane's square.
pub(crate) fn keep_copy(
    copies: &mut IndexMap<Part, Part>,
    plane: &Plane,
    other: &Plane,
    there: Part,
    copy: Part,
) -> Result<(), StoreFault>
    requires copies { RemembersCopies plane.now.store other.now.store copies.old }
    requires copied { IsCopy other.now.store plane.now.store there copy }
    ensures copies { RemembersCopies plane.now.store other.now.store copies.new }
    ensures err { IfErr result (λ fault. fault ≡ StoreFault.Memory) }
{
    match copies.insert(there, copy) {
        Ok(_) => Ok(()),
        Err(_) => Err(StoreFault::Memory),
    }
}

/// Whether two squares were found to have the same writes.
pub(crate) fn is_pair_kept(
    kept: &IndexSet<PartPair, HashKey>,
    plane: &Plane,
    other: &Plane,
    pair: &PartPair,
) -> bool
    requires { RemembersSame plane.now.store other.now.store kept.now }
    ensures { IsTrue result → AreSameSquares plane.now.store other.now.store pair.now.above pair.now.here pair.now.there }
{
    kept.contains(pair)
}

/// Keeps a pair of squares with the same writes.
pub(crate) fn keep_pair(
    kept: &mut IndexSet<PartPair, HashKey>,
    plane: &Plane,
    other: &Plane,
    pair: PartPair,
) -> Result<(), AllocError>
    requires kept { RemembersSame plane.now.store other.now.store kept.old }
    requires same { AreSameSquares plane.now.store other.now.store pair.above pair.here pair.there }
    ensures { RemembersSame plane.now.store other.now.store kept.new }
{
    match kept.insert(pair) {
        Ok(_) => Ok(()),
        Err(_) => Err(AllocError),
    }
}
