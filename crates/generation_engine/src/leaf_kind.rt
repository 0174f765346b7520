//! Leaves of 8 by 8 states, as a store of squares has them.

use bitplane_kernel::BitLeaf;
use square_store::LeafKind;

/// A leaf of a universe: 8 columns and 8 rows of states. As writes they have the stamp 0, so the only
/// blank is the dead square.
#[derive(Clone, Copy, PartialEq, Eq, Hash)]
pub struct EngineLeaf {
    pub leaf: BitLeaf,
}

/// Nothing stands beside a square.
impl LeafKind for EngineLeaf {
    ghost use Rattle.std.proofs.Common.{arith};
    ghost use Rattle.generation_engine.specs.EngineLeaf.{leaf_grid, IsEngineLeaf, leaf_exact, leaf_same};

    type Summary = ();

    ghost write = { leaf_grid };

    ghost side = { 8 };

    ghost IsLeaf = { IsEngineLeaf };

    ghost IsSummary = { λ _ _ _. Unit {0} };

    fn blank_stamp(&self) -> Option<u64> {
        if self.leaf.is_dead() { Some(0) } else { None }
    }

    fn summary(&self) {}

    fn summary_of_blank(_stamp: u64) {}

    fn summary_of_four(_nw: (), _ne: (), _sw: (), _se: ()) {}

    ghost some = { Prim.omega arith };

    ghost same = { leaf_same };

    ghost exact = { leaf_exact };
}
