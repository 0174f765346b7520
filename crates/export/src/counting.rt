//! Whether a plane has few cells, before they are listed.

use crate::exporting::MOST_CELLS;
use stamped_tree::{Plane, Square, View};

/// How many levels the root is above a leaf.
const ROOT_ABOVE_LEAF: u32 = 28;

/// How many squares are looked at.
const MOST_LOOKS: u64 = 0x200_0000;

/// Cells that were counted, and squares that were looked at, each in every place where it stands.
#[derive(Drop)]
struct Tally {
    cells: u64,
    looks: u64,
}

impl Tally {
    fn is_many(&self) -> bool {
        self.cells > MOST_CELLS || self.looks > MOST_LOOKS
    }

    /// Counts those of a square, so many levels above a leaf, until they are many.
    fn add(&mut self, square: &Square<'_>, above: u32) {
        if self.is_many() {
            return;
        }
        self.looks = self.looks.saturating_add(1);
        match square.view() {
            View::Blank(_) => {}
            View::Leaf(leaf) => self.cells = self.cells.saturating_add(live_in(&leaf.states())),
            View::Four { nw, ne, sw, se } => {
                if above == 0 {
                    return;
                }
                self.add(&nw, above - 1);
                self.add(&ne, above - 1);
                self.add(&sw, above - 1);
                self.add(&se, above - 1);
            }
        }
    }
}

/// How many states are not 0.
fn live_in(states: &[u8; 64]) -> u64 {
    states.iter().filter(|state| **state != 0).count() as u64
}

/// Whether a plane has at most 2^24 cells that are not dead. It takes no memory. The answer is no, too, where that is not
/// found out by 2^25 looks at squares: squares that stand in many places are looked at in each, and a universe, which
/// counts each square once, is quicker then.
pub(crate) fn has_few_cells(plane: &Plane) -> bool {
    let mut tally = Tally { cells: 0, looks: 0 };
    tally.add(&plane.root(), ROOT_ABOVE_LEAF);
    !tally.is_many()
}
