//! Leaves of one write.

ghost use Rattle.std.specs.Prelude.{◌≡◌, ◌<◌, ◌||◌, ℕ};

use edit_stamps::Write;
use square_store::LeafKind;

/// A leaf of one column and one row. A summary says whether a square has a state other than 0.
#[derive(Clone, Copy, PartialEq, Eq, Hash)]
pub struct Single {
    pub write: Write,
}

fn any_of(nw: bool, ne: bool, sw: bool, se: bool) -> bool
    ensures { result ≡ (nw || ne || sw || se) }
{
    nw || ne || sw || se
}

impl LeafKind for Single {
    ghost use Rattle.std.proofs.Common.{arith, rules};
    ghost use Rattle.samples.specs.Single.{single_grid, IsLive, single_exact};

    type Summary = bool;

    ghost write = { single_grid };

    ghost side = { 1 };

    ghost IsLeaf = { λ _. Unit {0} };

    ghost IsSummary = { IsLive };

    fn blank_stamp(&self) -> Option<u64> {
        if self.write.state == 0 {
            Some(self.write.stamp)
        } else {
            None
        }
    }

    fn summary(&self) -> bool {
        self.write.state != 0
    }

    fn summary_of_blank(_stamp: u64) -> bool {
        false
    }

    fn summary_of_four(nw: bool, ne: bool, sw: bool, se: bool) -> bool {
        any_of(nw, ne, sw, se)
    }

    ghost some = { Prim.omega arith };

    ghost same = { λ a b h. Prim.search (rules, h) };

    ghost exact = { λ a b h k same. single_exact a b (same 0 0 (Prim.omega arith) (Prim.omega arith)) };
}
