//! A line that tells a square.

ghost use Rattle.std.specs.Prelude.{◌≡◌};

use bitplane_kernel::BitLeaf;

/// A line of a macrocell that tells a square.
#[derive(Clone, Copy, PartialEq, Eq, Hash)]
pub enum Line {
    /// A square of level 3, by its states.
    Leaf(BitLeaf),
    /// A square of a level, by what stands for its quarters: 0 for one whose states are all 0, and else the
    /// number of its line, from 1; at level 1 their states.
    Four {
        level: u32,
        nw: usize,
        ne: usize,
        sw: usize,
        se: usize,
    },
}

impl Line {
    ghost use Rattle.macrocell_lines.specs.Listing.{is_dead_line};

    /// Whether all states of the square are 0.
    pub(crate) fn is_dead(&self) -> bool
        ensures { result ≡ is_dead_line self.now }
    {
        match self {
            Line::Leaf(leaf) => leaf.is_dead(),
            Line::Four { nw, ne, sw, se, .. } => *nw == 0 && *ne == 0 && *sw == 0 && *se == 0,
        }
    }
}
