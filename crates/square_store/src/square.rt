//! What stands at a part.

use crate::part::Part;

/// A square, one step deep.
#[derive(Clone, Copy)]
pub enum Square<'a, L> {
    /// State 0 at every place, written with one stamp; stamp 0 where nothing was written. It stands
    /// for the blanks of every level.
    Blank(u64),
    /// A leaf, of level 0, that is no blank.
    Leaf(&'a L),
    /// Four squares of the level below, NW, NE, SW, SE, that together are no blank.
    Four { level: u32, parts: [Part; 4] },
}
