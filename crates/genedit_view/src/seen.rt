//! What is seen of a text.

use generations_rule::Rule;
use pattern_cells::Cell;

/// A rule, sorted cells that are not dead, the generation that the text tells, before those that are asked for,
/// and the bounds that it tells, which are passed over: cells live on the whole plane. A state tells no generation,
/// and has 0, and no bounds.
#[derive(Drop)]
pub struct SeenCells {
    pub rule: Rule,
    pub generation: u64,
    pub cells: Vec<Cell>,
    pub bounds: Option<Vec<u8>>,
}
