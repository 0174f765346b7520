//! Writes.

/// A write to one coordinate. Writes are ordered by stamp, then by state (`at_most` of
/// `specs/Write.antt`); the second part matters only where two peers share a replica's number. RR-7506
/// merges two registers to the greater of their writes.
#[derive(Clone, Copy, Debug, PartialEq, Eq, PartialOrd, Ord, Hash)]
pub struct Write {
    /// The number of the writing edit's stamp; 0 where nothing was written.
    pub stamp: u64,
    pub state: u8,
}

impl Write {
    /// The least write: nothing was written.
    pub const UNWRITTEN: Write = Write { stamp: 0, state: 0 };
}
