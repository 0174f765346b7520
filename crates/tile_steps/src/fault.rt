//! Why no generation was made.

/// Why no generation was made. The tiles are as before.
#[derive(Clone, Copy, Debug, PartialEq, Eq)]
pub enum TileFault {
    /// Behind a step more tiles would not be dead than there is room for.
    Full,
    /// A tile that is not dead would lie within 128 of the least or the greatest coordinate.
    Far,
    /// A run would make more windows than may be, four for each tile that a step begins with.
    Long,
    /// The system refused memory.
    Memory,
}
