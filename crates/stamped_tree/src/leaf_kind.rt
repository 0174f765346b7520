//! Leaves of 8 by 8 writes, as a store of squares has them.

ghost use Rattle.std.specs.Prelude.{◌≡◌, ◌<◌, ℕ, min, max};

use leaf_merge_lanes::Leaf;
use square_store::LeafKind;

/// A leaf of a plane: 8 columns and 8 rows.
#[derive(Clone, Copy, PartialEq, Eq, Hash)]
pub struct PlaneLeaf {
    pub leaf: Leaf,
}

/// The least and the greatest stamp of a square's writes.
#[derive(Clone, Copy, Debug, PartialEq, Eq)]
pub struct StampBounds {
    pub least: u64,
    pub greatest: u64,
}

fn least_of(a: u64, b: u64, c: u64, d: u64) -> u64
    ensures { result ≡ min (min (min a b) c) d }
{
    a.min(b).min(c).min(d)
}

fn greatest_of(a: u64, b: u64, c: u64, d: u64) -> u64
    ensures { result ≡ max (max (max a b) c) d }
{
    a.max(b).max(c).max(d)
}

impl LeafKind for PlaneLeaf {
    ghost use Rattle.std.proofs.Common.{arith};
    ghost use Rattle.stamped_tree.specs.LeafKind.{plane_grid, IsPlaneLeaf, AreStampBounds, plane_exact, plane_same};

    type Summary = StampBounds;

    ghost write = { plane_grid };

    ghost side = { 8 };

    ghost IsLeaf = { IsPlaneLeaf };

    ghost IsSummary = { AreStampBounds };

    fn blank_stamp(&self) -> Option<u64> {
        if self.leaf.get(0).state != 0 {
            return None;
        }
        self.leaf.is_blank()
    }

    fn summary(&self) -> StampBounds {
        let (least, greatest) = self.leaf.stamp_bounds();
        StampBounds { least, greatest }
    }

    fn summary_of_blank(stamp: u64) -> StampBounds {
        StampBounds {
            least: stamp,
            greatest: stamp,
        }
    }

    fn summary_of_four(
        nw: StampBounds,
        ne: StampBounds,
        sw: StampBounds,
        se: StampBounds,
    ) -> StampBounds {
        StampBounds {
            least: least_of(nw.least, ne.least, sw.least, se.least),
            greatest: greatest_of(nw.greatest, ne.greatest, sw.greatest, se.greatest),
        }
    }

    ghost some = { Prim.omega arith };

    ghost same = { plane_same };

    ghost exact = { plane_exact };
}
