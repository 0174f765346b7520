//! What a store tells squares apart by.

use crate::part::Part;

/// A square as a key. It is stored once, so a part stands for all that is below it.
#[derive(Clone, Copy, PartialEq, Eq, Hash)]
pub enum Node {
    /// A blank of a stamp, of every level.
    Blank(u64),
    /// The leaf at a place among the leaves.
    Leaf(u32),
    /// Four squares of the level below, and their own level.
    Four {
        level: u32,
        nw: Part,
        ne: Part,
        sw: Part,
        se: Part,
    },
}
